//! What a caller may not do.
ghost use Rattle.std.specs.Prelude.{◌≡◌, map};
ghost use Rattle.dav_guarding.specs.Policy.{Refusals};

use dav_resource::{DavPath, Op};

/// Says which calls of a store a caller may not make.
pub trait Policy {
    /// Which calls are refused, by their kind and the keys of their paths.
    ghost refusals: { Self → Refusals };

    /// Whether a call of this kind on these paths is refused. `Op::Entry` stands for a member in the listing of its
    /// directory, and `Op::WriteBytes` for `write_body` too.
    fn refuses(&self, op: Op, paths: &[DavPath]) -> bool
        ensures { result ≡ refusals self.now op (map (λ path. path.key) paths.now) };
}
