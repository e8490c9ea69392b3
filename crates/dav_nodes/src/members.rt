//! The members of a key, with their values.
ghost use Rattle.std.specs.Prelude.{length};
ghost use Rattle.std.specs.Iterator.{at_most};
ghost use Rattle.std.specs.Map.Iter.{TakesFirst, deref_pair};

use crate::node::Node;
use slab::Slab;
use std::collections::btree_map::Iter;
use std::marker::Model;

/// The members of a key that are left, each with its name and its value, in the byte order of their names. In
/// contracts its value is the list of them.
#[derive(Drop)]
pub struct Members<'a, R> {
    pub(crate) nodes: &'a Slab<Node<R>>,
    pub(crate) left: Option<Iter<'a, String, usize>>,
}

impl<'a, R> Model for Members<'a, R> {
    ghost use Rattle.std.specs.Prelude.{ℕ, List};
    ghost use Rattle.std.specs.Coded.{coded_list, coded×, coded_ℕ};

    ghost Value = { List (List ℕ × R) };

    ghost coded = { coded_list (coded× (coded_list coded_ℕ) R.code) };

    ghost use Rattle.std.specs.Prelude.{[], unwrap_or};
    ghost use Rattle.slab.specs.Slab.{get};
    ghost use Rattle.dav_nodes.specs.Links.{value_at};
    ghost use Rattle.dav_nodes.specs.Listing.{seen, with_values, AllLive};

    ghost view = { λ m. with_values (value_at (get m.nodes.now)) (seen (unwrap_or m.left [])) };

    ghost invariant = { λ m. AllLive (value_at (get m.nodes.now)) (seen (unwrap_or m.left [])) };
}

impl<'a, R> Iterator for Members<'a, R> {
    type Item = (&'a str, &'a R);

    ghost next_gives = { TakesFirst deref_pair };

    ghost remaining = { λ s. at_most (length s) };

    fn next(&mut self) -> Option<(&'a str, &'a R)> {
        let Some(left) = &mut self.left else {
            return None;
        };
        let (name, number) = left.next()?;
        let node = self.nodes.get(*number)?;
        Some((name.as_str(), &node.value))
    }
}
