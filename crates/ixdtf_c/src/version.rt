//! The version of the interface of the library for C.

ghost use Rattle.std.specs.Prelude.{◌≡◌};

/// Returns the version of the interface. It is `IXDTF_INTERFACE_VERSION` of the C header.
///
/// The version changes if a function, a struct or a number changes or is removed. It does not change if a function or a
/// number is added.
#[unsafe(no_mangle)]
pub extern "C" fn ixdtf_interface_version() -> u32
    ensures { result ≡ 2 }
{
    2
}
