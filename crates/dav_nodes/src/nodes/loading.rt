//! Trees made from rows.
ghost use Rattle.std.specs.Prelude.{◌≡◌, ◌≢◌, ◌<◌, ◌≤◌, ℕ, Bool, true, [], ◌∷◌, Some, None, Err, is_some, IsSome, IfOk, OnOk, IfErr, All, length};
ghost use Rattle.slab.specs.Slab.{get, Updates};
ghost use Rattle.dav_nodes.specs.Tree.{Tree};
ghost use Rattle.dav_nodes.specs.TreeRows.{HasOnly, AreRowsOf, AreAscending};
ghost use Rattle.dav_nodes.specs.Loading.{linked_part, HasNumber, IsLoaded, IsRefused, Attaches, NoneAttachable, StaysLoaded, IsErrorFor};

use crate::links;
use crate::memo::Memo;
use crate::node::Node;
use crate::nodes::Nodes;
use slab::Slab;
use std::alloc::{AllocError, AllocFailed, Global};

/// The parent's number in a node that is not in the tree. No node has this number.
const UNLINKED: usize = usize::MAX;

/// A value with its number, the number of its parent and its name there.
#[derive(Debug, Drop)]
pub struct NumberedValue<R> {
    pub number: usize,
    pub above: usize,
    pub name: String,
    pub value: R,
}

/// Why no tree was made.
#[derive(Debug, Clone, Copy, PartialEq, Eq)]
pub enum RowsError {
    /// The rows are not those of a tree.
    NotATree,
    /// Memory ran out.
    Memory,
}

impl From<AllocError> for RowsError {
    ghost use Rattle.dav_nodes.specs.declared.nodes.loading.RowsError.TheVariants.{Memory};

    ghost from_gives = { λ _ e. e ≡ Memory };

    fn from(_: AllocError) -> RowsError {
        RowsError::Memory
    }
}

impl<T: Drop> From<AllocFailed<T>> for RowsError {
    ghost use Rattle.dav_nodes.specs.declared.nodes.loading.RowsError.TheVariants.{Memory};

    ghost from_gives = { λ _ e. e ≡ Memory };

    fn from(_: AllocFailed<T>) -> RowsError {
        RowsError::Memory
    }
}

/// Whether a node is in the tree.
fn is_linked<R>(nodes: &Slab<Node<R>>, number: usize) -> bool
    ensures linked { result ≡ is_some (linked_part (get nodes.now) number) }
    ensures other { result ≡ true → number ≢ UNLINKED }
{
    if number >= nodes.capacity() {
        return false;
    }
    match nodes.get(number) {
        Some(node) => node.above != UNLINKED,
        None => false,
    }
}

/// Puts a node in the place of another one.
fn put<R: Drop>(nodes: &mut Slab<Node<R>>, number: usize, node: Node<R>)
    requires { IsSome (get nodes.old number) }
    ensures { Updates nodes.old nodes.new number (Some node) }
{
    if let Some(slot) = nodes.get_mut(number) {
        *slot = node;
    }
}

/// Creates nodes that are not in the tree, under all numbers below a bound, and perhaps further ones.
fn unlinked<R: Drop, F: FnMut() -> R>(
    alloc: Global,
    bound: usize,
    mut filler: F,
) -> Result<Slab<Node<R>>, AllocError>
    requires { F.IsAlwaysCallable filler }
    ensures slots { IfOk result (λ nodes. (n : ℕ) → n < bound → IsSome (get nodes n)) }
    ensures none { IfOk result (λ nodes. (n : ℕ) → linked_part (get nodes) n ≡ None) }
{
    let mut nodes = Slab::with_capacity(alloc, bound)?;
    'slots: while nodes.len() < nodes.capacity() {
        nodes.insert_reserved(Node::new(alloc, UNLINKED, String::new(alloc), filler()));
    }
    Ok(nodes)
}

/// Whether the numbers of the rows ascend.
fn are_ascending<R>(rows: &[NumberedValue<R>]) -> bool
    ensures { AreAscending rows.now → result ≡ true }
{
    for i in 1..rows.len() {
        if rows[i - 1].number >= rows[i].number {
            return false;
        }
    }
    true
}

/// Returns the greatest number of the rows, or 0 if there is none.
fn max_number<R>(rows: &[NumberedValue<R>]) -> usize
    ensures { (n : ℕ) → HasNumber n rows.now → n ≤ result }
{
    let mut max = 0;
    for row in rows {
        if row.number > max {
            max = row.number;
        }
    }
    max
}

/// Creates nodes for these rows, of which only the root is in the tree. Fails only if memory runs out.
fn rooted<R: Drop, F: FnMut() -> R>(
    alloc: Global,
    root: NumberedValue<R>,
    rows: &[NumberedValue<R>],
    filler: F,
) -> Result<Slab<Node<R>>, AllocError>
    requires callable { F.IsAlwaysCallable filler }
    requires root { root.number ≡ 0 }
    ensures { IfOk result (λ nodes. IsLoaded (root ∷ rows.now) (get nodes) rows.now) }
{
    let Some(bound) = max_number(rows).checked_add(1) else {
        return Err(AllocError);
    };
    let mut nodes = unlinked(alloc, bound, filler)?;
    let node = Node::new(alloc, 0, String::new(alloc), root.value);
    put(&mut nodes, 0, node);
    Ok(nodes)
}

/// Adds the node of a row to the tree. Its parent must be in the tree, and it must not. Fails if memory runs
/// out, and if the row is none of a tree: then no slot has its number, or its parent has a member with its
/// name.
fn attach<R: Drop>(
    nodes: &mut Slab<Node<R>>,
    alloc: Global,
    row: NumberedValue<R>,
) -> Result<(), RowsError>
    requires above { is_some (linked_part (get nodes.old) row.above) ≡ true }
    requires other { row.above ≢ UNLINKED }
    requires free { linked_part (get nodes.old) row.number ≡ None }
    ensures ok { OnOk result (Attaches nodes.old nodes.new row) }
    ensures refused { result ≡ Err RowsError.NotATree → IsRefused (get nodes.old) row }
    ensures slots { (n : ℕ) → IsSome (get nodes.old n) → IsSome (get nodes.new n) }
{
    let NumberedValue {
        number,
        above,
        name,
        value,
    } = row;
    if !nodes.contains(number) || links::member(nodes, above, &name).is_some() {
        return Err(RowsError::NotATree);
    }
    let own_name = String::from_str(alloc, &name)?;
    links::enter(nodes, above, own_name, number)?;
    put(nodes, number, Node::new(alloc, above, name, value));
    Ok(())
}

/// Adds the nodes of those rows whose parent is in the tree. Returns the other rows. Fails if memory runs out,
/// and if the rows are not those of a tree.
fn attach_some<R: Drop>(
    nodes: &mut Slab<Node<R>>,
    alloc: Global,
    mut rows: Vec<NumberedValue<R>>,
) -> Result<Vec<NumberedValue<R>>, RowsError>
    ensures ok { IfOk result (λ left. StaysLoaded (get nodes.old) rows.items (get nodes.new) left.items) }
    ensures stuck { IfOk result (λ left. length rows.items ≤ length left.items → NoneAttachable (get nodes.new) left.items) }
    ensures err { IfErr result (λ e. IsErrorFor (get nodes.old) rows.items e) }
{
    let mut left = Vec::new(alloc);
    while let Some(row) = rows.pop() {
        if !is_linked(nodes, row.above) {
            left.push(row)?;
        } else if !is_linked(nodes, row.number) {
            attach(nodes, alloc, row)?;
        }
    }
    Ok(left)
}

/// Adds the nodes of the rows to the tree. Fails if memory runs out, and if the rows are not those of a tree.
fn attach_all<R: Drop>(
    nodes: &mut Slab<Node<R>>,
    alloc: Global,
    mut rows: Vec<NumberedValue<R>>,
) -> Result<(), RowsError>
    ensures ok { OnOk result (StaysLoaded (get nodes.old) rows.items (get nodes.new) []) }
    ensures err { IfErr result (λ e. IsErrorFor (get nodes.old) rows.items e) }
{
    'passes: while !rows.is_empty() {
        let count = rows.len();
        rows = attach_some(nodes, alloc, rows)?;
        if rows.len() >= count {
            return Err(RowsError::NotATree);
        }
    }
    Ok(())
}

/// Removes the nodes that are not in the tree.
fn remove_unlinked<R: Drop>(nodes: &mut Slab<Node<R>>)
    ensures { (n : ℕ) → get nodes.new n ≡ linked_part (get nodes.old) n }
{
    for number in 0..nodes.capacity() {
        if !is_linked(nodes, number) {
            nodes.try_remove(number);
        }
    }
}

impl<R> Nodes<R> {
    /// Makes the tree of which these are the rows, in ascending order of their numbers. Of the first row, the
    /// root's, it reads only the number and the value. `filler` makes a value for each number at first, and
    /// these values are dropped: each value of the tree is that of a row. It goes over the rows at most once for
    /// each level of the tree. Fails if memory runs out, and if the rows are not those of a tree.
    pub fn from_rows<F: FnMut() -> R>(
        alloc: Global,
        mut rows: Vec<NumberedValue<R>>,
        filler: F,
    ) -> Result<Nodes<R>, RowsError>
    where
        R: Drop,
        requires { F.IsAlwaysCallable filler }
        ensures ok { (tree : Tree R) → AreRowsOf rows.items tree → IfOk result (λ nodes. nodes ≡ tree) }
        ensures err { (tree : Tree R) → AreRowsOf rows.items tree → IfErr result (λ e. e ≡ RowsError.Memory) }
        ensures values { (test : R → Bool) → All (λ row. test row.value ≡ true) rows.items → IfOk result (HasOnly test) }
    {
        if rows.is_empty() || !are_ascending(&rows) {
            return Err(RowsError::NotATree);
        }
        let root = rows.remove(0);
        if root.number != 0 {
            return Err(RowsError::NotATree);
        }
        let mut nodes = rooted(alloc, root, &rows, filler)?;
        attach_all(&mut nodes, alloc, rows)?;
        remove_unlinked(&mut nodes);
        Ok(Nodes {
            alloc,
            nodes,
            memo: Memo::new(),
        })
    }
}
