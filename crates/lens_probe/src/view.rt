//! A view of a lens over tables.
ghost use Rattle.std.specs.Prelude.{◌≡◌, ◌≢◌, ◌+◌, ◌*◌, ◌≤◌, ℕ, [], Contains, IfOk, Some, length, true};
ghost use Rattle.plain_values.specs.SortedSet as set;
ghost use Rattle.lens_specs.specs.Delta.{diff};
ghost use Rattle.lens_specs.specs.Lens.{sort_of};
ghost use Rattle.lens_specs.specs.Sort.{IsOfSort};
ghost use Rattle.lens_laws.specs.Asked.{HasKeys, asked};
ghost use Rattle.lens_laws.specs.Finds.{AllFit};
ghost use Rattle.lens_laws.specs.Lenses.{AreOf};
ghost use Rattle.lens_probe.specs.NearRows.{AreOfJoin};
ghost use Rattle.lens_probe.specs.Reading.{rows_under};
ghost use Rattle.lens_probe.specs.Viewed.{AreIndexed, AreNear, CanAsk, IsViewed, IsWithin, Viewed, asked_by, both_sides};
ghost use Rattle.lens_probe.specs.Viewed.{is_left_side, only_source, shown, sides_of, source_of, viewed, viewed_code};

use crate::finding::{Query, find_in};
use crate::handed::HandedDown;
use crate::having::has_in;
use crate::near::{Near, near_each};
use base_index::Tables;
use fd_tree::Edge;
use lens_types::{Node, Sort, TypedLens};
use lens_values::{Columns, Names, NoMemory, Row};
use row_sets::{Relation, RowSet};
use signed_delta::{Delta, Look};
use std::alloc::Global;
use std::marker::Model;
use std::sync::ledger::Ledger;
use step_counter::Steps;
use view_reading::{difference_in, read_in};

/// What a lens shows of tables, by key. A contract sees the lens, the sets of columns that were
/// handed down to it, and the tables.
#[derive(Drop)]
pub struct View<'a> {
    lens: &'a TypedLens,
    sort: &'a Sort,
    tables: &'a Tables,
    handed: HandedDown,
    // What was found beforehand, and is not looked for again.
    near: &'a [Near],
}

impl<'a> Model for View<'a> {
    ghost Value = { Viewed };

    ghost coded = { viewed_code };

    ghost view = { λ v. viewed v.lens.now v.handed.sets v.tables.now };

    ghost invariant = { λ v. IsViewed (viewed v.lens.now v.handed.sets v.tables.now) × (v.sort.now ≡ sort_of v.lens.now) × AreOfJoin v.lens.now v.tables.now.present v.near.now };
}

impl<'a> View<'a> {
    /// The view of a lens, whose tables are there, of their sorts and with the indexes that it
    /// needs.
    pub fn of(lens: &'a TypedLens, tables: &'a Tables) -> View<'a>
        requires keys { HasKeys lens.now }
        requires tables { AreOf lens.now tables.now.present.relations }
        requires indexed { AreIndexed (asked lens.now []) tables.now.present }
        ensures { result ≡ record { lens = lens.now; sets = []; tables = tables.now } }
    {
        View::new(lens, tables, HandedDown::none(), &[])
    }

    // The view of a lens to which these sets were handed down, and of which this is known.
    fn new(
        lens: &'a TypedLens,
        tables: &'a Tables,
        handed: HandedDown,
        near: &'a [Near],
    ) -> View<'a>
        requires asks { CanAsk lens.now handed.sets tables.now.present }
        requires near { AreOfJoin lens.now tables.now.present near.now }
        ensures { result ≡ viewed lens.now handed.sets tables.now }
    {
        View {
            lens,
            sort: lens.sort(),
            tables,
            handed,
            near,
        }
    }

    /// The lens.
    pub fn lens(&self) -> &'a TypedLens
        ensures lens { result.now ≡ self.now.lens }
        ensures viewed { IsViewed self.now }
    {
        self.lens
    }

    /// Whether the columns are the left side of one of the edges of the view's sort, so that the
    /// view may be asked by them.
    pub fn asked_by(&self, cols: &Names) -> bool
        ensures left { result ≡ is_left_side cols.now (sort_of self.now.lens).tree }
        ensures asked { result ≡ true → Contains (asked_by self.now) cols.now }
        ensures some { result ≡ true → length (set.items cols.now) ≢ 0 }
    {
        is_left_side(self.sort.tree().edges(), cols)
    }

    /// The view of the only source, at a select, at a drop and at a rename.
    pub fn source(&self) -> Option<View<'a>>
        ensures { result ≡ source_of self.now }
    {
        match self.lens.node() {
            Node::Select { of, .. } => Some(self.over(of)),
            Node::Drop { of, .. } => Some(self.over(of)),
            Node::Rename { of, .. } => Some(self.over(of)),
            Node::Base { .. } | Node::Join { .. } => None,
        }
    }

    /// The views of the left and of the right side, at a join.
    pub fn sides(&self) -> Option<(View<'a>, View<'a>)>
        ensures { result ≡ sides_of self.now }
    {
        match self.lens.node() {
            Node::Join { left, right, .. } => Some(self.over_sides(left, right)),
            Node::Base { .. } | Node::Select { .. } | Node::Drop { .. } | Node::Rename { .. } =>
                None,
        }
    }

    /// The whole view, which is of the lens's sort. Each table under the lens is walked once.
    pub fn read<L: Ledger>(
        &self,
        alloc: Global,
        walked: &mut Steps<L>,
    ) -> Result<Relation, NoMemory>
        ensures value { IfOk result (λ relation. relation ≡ shown self.now) }
        ensures sort { IfOk result (λ relation. IsOfSort relation (sort_of self.now.lens)) }
        ensures walked { let db = self.now.tables.present.relations in
            walked.new ≤ walked.old + rows_under self.now.lens db }
        ensures walks_on { walked.old ≤ walked.new }
    {
        read_in(alloc, self.lens, self.tables, walked)
    }

    /// The difference from the whole view to these rows, which have its columns. Each table under
    /// the lens is walked once.
    pub fn difference<L: Ledger>(
        &self,
        alloc: Global,
        rows: &RowSet,
        walked: &mut Steps<L>,
    ) -> Result<Delta, NoMemory>
        requires { AllFit (sort_of self.now.lens).columns rows.now }
        ensures delta { IfOk result (λ delta. delta ≡ diff (shown self.now).rows rows.now) }
        ensures walked { let db = self.now.tables.present.relations in
            walked.new ≤ walked.old + rows_under self.now.lens db }
        ensures walks_on { walked.old ≤ walked.new }
    {
        difference_in(alloc, self.lens, self.tables, rows, walked)
    }

    /// What a few rows that are removed and added are near to, found once: an edit of them asks for
    /// it again and again.
    pub fn near<L: Ledger>(
        &self,
        alloc: Global,
        removed: &RowSet,
        added: &RowSet,
        looked: &mut Steps<L>,
    ) -> Result<Vec<Near>, NoMemory>
        requires removed { AllFit (sort_of self.now.lens).columns removed.now }
        requires added { AllFit (sort_of self.now.lens).columns added.now }
        ensures near { IfOk result (λ near. AreNear self.now near.items) }
        ensures looks { (n : ℕ) → IsWithin self.now n → looked.new ≤ looked.old
            + n * (length (set.items removed.now) + length (set.items added.now)) }
    {
        let none = Vec::new(alloc);
        let near = near_each(alloc, self.lens, self.tables, removed, none, looked)?;
        near_each(alloc, self.lens, self.tables, added, near, looked)
    }

    /// This view, which takes from `near` what was found and does not look for it again.
    pub fn knowing<'b>(&'b self, near: &'b [Near]) -> View<'b>
        requires { AreNear self.now near.now }
        ensures { result ≡ self.now }
    {
        View::new(self.lens, self.tables, self.handed.copy(), near)
    }

    /// The view of this source of the lens, which is its only one.
    pub fn over(&self, source: &'a TypedLens) -> View<'a>
        requires { only_source self.now.lens ≡ Some source.now }
        ensures { Some result ≡ source_of self.now }
    {
        View::new(
            source,
            self.tables,
            self.handed.to_first(self.lens),
            self.near,
        )
    }

    /// The views of these sides of the lens, the left one first.
    pub fn over_sides(&self, left: &'a TypedLens, right: &'a TypedLens) -> (View<'a>, View<'a>)
        requires { both_sides self.now.lens ≡ Some (left.now, right.now) }
        ensures { Some result ≡ sides_of self.now }
    {
        let over_left = View::new(left, self.tables, self.handed.to_first(self.lens), &[]);
        let over_right = View::new(right, self.tables, self.handed.to_second(self.lens), &[]);
        (over_left, over_right)
    }
}

impl<'a> Look for View<'a> {
    ghost relation = { shown };

    ghost asked = { asked_by };

    ghost within = { IsWithin };

    fn columns(&self) -> &Columns {
        self.sort.cols()
    }

    fn has<L: Ledger>(
        &self,
        alloc: Global,
        row: &Row,
        looked: &mut Steps<L>,
    ) -> Result<bool, NoMemory> {
        has_in(alloc, self.lens, self.near, self.tables, row, looked)
    }

    fn find<L: Ledger>(
        &self,
        alloc: Global,
        cols: &Names,
        key: &Row,
        looked: &mut Steps<L>,
    ) -> Result<RowSet, NoMemory> {
        let query = Query {
            tables: self.tables,
            cols,
            key,
        };
        find_in(alloc, self.lens, self.near, &query, looked)
    }
}

// Whether the columns are the left side of one of the edges.
fn is_left_side(edges: &[Edge], cols: &Names) -> bool
    ensures { result ≡ is_left_side cols.now edges.now }
{
    edges.iter().any(|edge| edge.left.same(cols))
}
