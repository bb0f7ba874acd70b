//! The placeholder type for the content of the disk's file.

ghost use Rattle.std.specs.Prelude.{[], false};

use zh_file::Start;

/// The type that `main` gives for the content of the disk's file when it is opened. The real content is unknown, so this type
/// claims an empty file, and at this type the clauses on content say nothing about a file that holds a count. They are proved
/// for every type that implements `Start`. Code can't read the content that such a type claims; it can only learn one bit from
/// it, the result of `mixes`.
#[derive(Drop)]
pub(crate) struct UnknownContent;

impl Start for UnknownContent {
    ghost log = { [] };

    ghost db = { [] };

    ghost is_mixing = { false };

    fn mixes() -> bool {
        false
    }
}
