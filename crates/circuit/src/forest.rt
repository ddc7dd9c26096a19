// Union-find by Tarjan over the list places of a scene's components: union by rank, with chains flattened by `find`;
// and the numbers of the groups.
ghost use Rattle.std.specs.Prelude.{◌≡◌, ◌≢◌, ℕ, ◌<◌, ◌≤◌, length, slice_index, get_or};
ghost use Rattle.lists.specs.Limits.{component_limit};
ghost use Rattle.circuit.specs.Forest.{root, singletons, unite, unite_roots, IsForest, Found};
ghost use Rattle.circuit.specs.Groups.{roots_below, groups_of, RootNumbers, RootsWithin};

use lists::COMPONENTS;
use std::marker::Model;

// The root of v, by recursion up the parents: each place on the way to it gets it for a parent. A root and a root's child are answered
// with nothing written, and a grandchild with no call. Over the arrays, since a forest does not show its chains.
#[cycle(find)]
fn find(parents: &mut [u16; COMPONENTS], ranks: &[u8; COMPONENTS], v: usize) -> u16
    requires { (v < component_limit) × IsForest parents.old ranks.now }
    ensures { Found parents.old parents.new ranks.now v result }
{
    let parent = parents[v];
    let top = parents[parent as usize];
    if top == parent {
        return parent;
    }
    if parents[top as usize] == top {
        parents[v] = top;
        return top;
    }
    find_above(parents, ranks, v)
}

// The root of v, which is none itself, by its parent's. A function of its own, since a `find` that called itself would be made part of no
// caller, and groups would take a third longer.
#[cycle(find)]
#[inline(never)]
fn find_above(parents: &mut [u16; COMPONENTS], ranks: &[u8; COMPONENTS], v: usize) -> u16
    requires { (v < component_limit) × IsForest parents.old ranks.now × (get_or parents.old v 0 ≢ v) }
    ensures { Found parents.old parents.new ranks.now v result }
{
    let parent = parents[v];
    let root = find(parents, ranks, parent as usize);
    parents[v] = root;
    root
}

// The parent and the rank of each place, as the paper has them, in as few bytes as they take. A root is its own parent. Two arrays: a
// chain is followed through the parents alone, and `find` changes no rank.
#[derive(Drop)]
pub(crate) struct UnionFind {
    parents: [u16; COMPONENTS],
    ranks: [u8; COMPONENTS],
}

// Clauses see the forest that the arrays stand for.
impl Model for UnionFind {
    ghost use Rattle.circuit.specs.Forest.{Forest, seen, Represents};

    ghost Value = { Forest };

    ghost view = { λ u. seen u.parents u.ranks };

    ghost invariant = { λ u. Represents u.parents u.ranks (seen u.parents u.ranks) };
}

impl UnionFind {
    // Each place is its own root, of rank 0. As the paper asks, the arrays are made of equal entries and then filled.
    pub(crate) fn new() -> Self
        ensures { result ≡ singletons }
    {
        let mut parents = [0; COMPONENTS];
        for (place, parent) in parents.iter_mut().enumerate() {
            *parent = place as u16;
        }
        UnionFind {
            parents,
            ranks: [0; COMPONENTS],
        }
    }

    // The root of v.
    pub(crate) fn root(&mut self, v: usize) -> u16
        requires { v < component_limit }
        ensures below { result < component_limit }
        ensures root { result ≡ root self.old v }
        ensures fixed { root self.old result ≡ result }
        ensures kept { self.new ≡ self.old }
    {
        find(&mut self.parents, &self.ranks, v)
    }

    // Joins the groups of two roots: the root of lower rank goes under the other. At equal rank the right root goes under the left one,
    // whose rank grows.
    pub(crate) fn union_roots(&mut self, l: u16, r: u16)
        requires below { (l < component_limit) × (r < component_limit) }
        requires roots { (root self.old l ≡ l) × (root self.old r ≡ r) }
        ensures { self.new ≡ unite_roots self.old l r }
    {
        if l == r {
            return;
        }
        let low = self.ranks[l as usize];
        let high = self.ranks[r as usize];
        if low < high {
            self.parents[l as usize] = r;
        } else {
            self.parents[r as usize] = l;
            if low == high {
                self.ranks[l as usize] = low + 1;
            }
        }
    }

    // Joins the group of left, a connection's source, and that of right, its sink.
    pub(crate) fn union(&mut self, left: usize, right: usize)
        requires { (left < component_limit) × (right < component_limit) }
        ensures { self.new ≡ unite self.old left right }
    {
        let l = self.root(left);
        let r = self.root(right);
        self.union_roots(l, r);
    }

    // Numbers the roots among the first places by rising place, and answers how many there are.
    fn number_roots(&self, numbers: &mut [u16]) -> usize
        requires { length numbers.old ≤ component_limit }
        ensures numbers { RootNumbers self.now numbers.new }
        ensures count { result ≡ roots_below self.now (length numbers.old) }
    {
        let mut count: usize = 0;
        for (v, number) in numbers.iter_mut().enumerate() {
            *number = count as u16;
            if self.parents[v] as usize == v {
                count += 1;
            }
        }
        count
    }

    // Writes the number of its root to each of the first places.
    fn write_numbers(&mut self, numbers: &[u16], out: &mut [u64])
        requires room { (length out.old ≤ component_limit) × (length numbers.now ≡ length out.old) }
        requires inside { RootsWithin self.old (length out.old) }
        requires numbers { RootNumbers self.old numbers.now }
        ensures { out.new ≡ groups_of self.old (length out.old) }
    {
        for (v, number) in out.iter_mut().enumerate() {
            *number = numbers[self.root(v) as usize] as u64;
        }
    }

    // Writes the number of its group for each of the first places, where these have their roots, and answers how many groups
    // there are. Groups number from 0 by rising place of the root.
    pub(crate) fn number_groups(&mut self, out: &mut [u64]) -> usize
        requires room { length out.old ≤ component_limit }
        requires inside { RootsWithin self.old (length out.old) }
        ensures numbers { out.new ≡ groups_of self.old (length out.old) }
        ensures count { result ≡ roots_below self.old (length out.old) }
    {
        let mut all_numbers = [0u16; COMPONENTS];
        let numbers = &mut all_numbers[..out.len()];
        let count = self.number_roots(numbers);
        self.write_numbers(numbers, out);
        count
    }
}
