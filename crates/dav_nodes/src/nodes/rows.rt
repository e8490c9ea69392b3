//! Values with their places, by number.
ghost use Rattle.std.specs.Prelude.{◌≡◌, IfSome, None};
ghost use Rattle.dav_nodes.specs.Rows.{Row, HasRow, row_in};

use crate::nodes::Nodes;

/// A value with the number of its parent and its name there. The root has no name, and is its own parent.
#[derive(Drop)]
pub struct PlacedValue<'a, R> {
    pub above: usize,
    pub name: Option<&'a str>,
    pub value: &'a R,
}

impl<R> Nodes<R> {
    /// Returns the value with a number, and where it is. Returns `None` if no value has the number.
    pub fn placed(&self, number: usize) -> Option<PlacedValue<'_, R>>
        ensures some { IfSome result (λ placed. HasRow self.now number (row_in placed)) }
        ensures none { result ≡ None → (row : Row R) → HasRow self.now number row → ⊥ }
    {
        let node = self.nodes.get(number)?;
        let name = if number == 0 {
            None
        } else {
            Some(node.name.as_str())
        };
        Some(PlacedValue {
            above: node.above,
            name,
            value: &node.value,
        })
    }
}
