//! The law about a caller that lists annotations and replies to them.
//!
//! A law is a theorem for callers. It is the contract of a function that does nothing.

ghost use Rattle.ixdtf_c.specs.Narrow.{annotation_by as narrow_by};
ghost use Rattle.ixdtf_c.specs.Wide.{annotation_by as wide_by};
ghost use Rattle.ixdtf_c.specs.Replying.{ReplyingGives, ReplyingIsHandling};

use ixdtf::encoding::EncodingType;
use ixdtf::records::Annotation;

/// States that a caller that lists the annotations and replies to them gets the same outcome as a reader with a
/// handler. Only the position of an error can be different.
///
/// A caller lists all annotations of a text, replies to them in order, and stops at the first reply that is refused. A
/// *beginning* of a list is any number of its elements, from the first one on.
///
/// - `gives`, `wide_gives`: There is a number n for which the outcome of the caller follows from three things: the text,
///   the first n listed annotations, and the first n replies. The definition `GivesResult` says what *follows* means. It
///   uses `GivesRecord` if the outcome is a record, and `GivesFault` if it is an error. The outcome does not include the
///   position of an error. The contracts of the readers with a handler use the same two definitions.
/// - `handling`, `wide_handling`: Suppose that another reader reads the same text. This reader has a handler, and is of the
///   same kind as the reader that listed the annotations. Suppose also that the replies of the handler, in order, are a
///   beginning of the caller's list of replies. Then the reader with the handler has the same outcome as the caller, except
///   for the position of an error. The annotations for which this reader called the handler are a beginning of the list of
///   annotations.
pub fn replying_is_handling<'a, T: EncodingType, F>()
where
    T::CodeUnit: 'a,
    F: FnMut(Annotation<'a, T>) -> Option<Annotation<'a, T>>,
    ensures gives { ReplyingGives narrow_by }
    ensures wide_gives { ReplyingGives wide_by }
    ensures handling { ReplyingIsHandling narrow_by T.number F.step }
    ensures wide_handling { ReplyingIsHandling wide_by T.number F.step }
{}
