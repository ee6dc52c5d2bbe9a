//! Routes, packed.
ghost use Rattle.std.specs.Prelude.{◌≡◌, ◌+◌, ◌<◌, ◌≤◌, length, All, IfOk};
ghost use Rattle.roll_branch.specs.Changes.{rows_from, AreFilled, IsPlaced};
ghost use Rattle.roll_branch.specs.Packed.{changes_of};

use crate::change::{Change, patch};
use crate::packing::{Packing, ROUTE_LIMIT};
use arrayvec::ArrayVec;
use roll_frame::{Path, Route, Row};
use std::alloc::{AllocError, Global};
use std::marker::Model;

/// A route in memory of its own, of little more than its rows differ from each other. A clause sees the route.
#[derive(Debug, Drop)]
pub struct PackedRoute {
    packed: Box<Packed>,
}

/// The rows of a path and of a run, by what each has otherwise than the one before it.
#[derive(Debug, Drop)]
struct Packed {
    base: u32,
    path: u8,
    run: u8,
    changes: Changes,
}

const _: () = prove!(size_of::<Packed>() == 56);

/// The changes of a route: a few lie beside the rest of it, and more in memory of their own.
#[derive(Debug, Drop)]
enum Changes {
    Few(ArrayVec<Change, 4>),
    Many(Vec<Change>),
}

impl Model for PackedRoute {
    ghost use Rattle.roll_frame.specs.declared.route.Route.{Route};

    ghost Value = { Route };

    ghost use Rattle.roll_branch.specs.Packed.{unpacked, IsSound};

    ghost view = { λ p. unpacked p.packed.value };

    ghost invariant = { λ p. IsSound p.packed.value };
}

impl PackedRoute {
    /// Packs a route.
    pub fn new(alloc: Global, route: &Route) -> Result<PackedRoute, AllocError>
        ensures { IfOk result (λ packed. packed ≡ route.now) }
    {
        let mut packing = Packing::new();
        packing.add_rows(route.path.rows.as_slice());
        packing.add_rows(route.rows.as_slice());
        let packed = Packed {
            base: route.path.base,
            path: route.path.rows.len() as u8,
            run: route.rows.len() as u8,
            changes: Changes::new(alloc, packing.changes.as_slice())?,
        };
        Ok(PackedRoute {
            packed: Box::new(alloc, packed)?,
        })
    }

    /// The route.
    pub fn get(&self) -> Route
        ensures { result ≡ self.now }
    {
        let packed: &Packed = &self.packed;
        let rows = first_rows(packed.changes.as_slice(), packed.path + packed.run);
        let (path, run) = rows.as_slice().split_at(usize::from(packed.path));
        let mut route = Route {
            path: Path::new(packed.base),
            rows: ArrayVec::new(),
        };
        route.path.rows.try_extend_from_slice(path).unwrap();
        route.rows.try_extend_from_slice(run).unwrap();
        route
    }

    /// How many rows are run.
    pub fn count(&self) -> usize
        ensures { result ≡ length self.now.rows.items }
    {
        let packed: &Packed = &self.packed;
        usize::from(packed.run)
    }
}

impl Changes {
    fn new(alloc: Global, changes: &[Change]) -> Result<Changes, AllocError>
        ensures { IfOk result (λ made. changes_of made ≡ changes.now) }
    {
        match ArrayVec::try_from(changes) {
            Ok(few) => Ok(Changes::Few(few)),
            Err(_) => Ok(Changes::Many(Vec::from_slice(alloc, changes)?)),
        }
    }

    fn as_slice(&self) -> &[Change]
        ensures { result.now ≡ changes_of self.now }
    {
        match self {
            Changes::Few(few) => few.as_slice(),
            Changes::Many(many) => many.as_slice(),
        }
    }
}

/// The first rows, so many of them.
fn first_rows(changes: &[Change], count: u8) -> ArrayVec<Row, ROUTE_LIMIT>
    requires few { count ≤ ROUTE_LIMIT }
    requires filled { AreFilled changes.now count }
    requires placed { All IsPlaced changes.now }
    ensures { result.items ≡ rows_from changes.now 0 count }
{
    let mut cells = ArrayVec::new();
    let mut rows = ArrayVec::new();
    for row in 0..count {
        patch(&mut cells, changes, row);
        rows.push(Row::from_cells(cells.as_slice()));
    }
    rows
}
