//! The definitions of a store, which are accepted again when the store is opened.
ghost use Rattle.std.specs.Prelude.{◌≡◌, ◌++◌, ◌∷◌, [], IfErr, IfOk, IsOk, OnOk};
ghost use Rattle.std.specs.Option.{option_to_list};
ghost use Rattle.catalog_specs.specs.Catalogue.{catalogue};
ghost use Rattle.catalog_specs.specs.Judging.{judged};
ghost use Rattle.grammar_laws.specs.Reading.{reading};
ghost use Rattle.view_catalog.specs.Faults.{IsRefused};
ghost use Rattle.database_opening.specs.Openings.{AreAdmitted, HasEmptyTables, HasTables, IsRefusedAt};

use crate::damage::Damage;
use crate::fault::OpenFault;
use base_index::Tables;
use database::stage_definition;
use lens_values::{Name, NoMemory, Text};
use std::alloc::Global;
use std::sync::ledger::Ledger;
use step_counter::Steps;
use view_catalog::{Catalog, CatalogFault};

/// Definitions that were taken, and their tables, which have no row yet.
#[derive(Drop)]
pub struct Admitted {
    /// The definitions, and the lens of each name.
    pub catalog: Catalog,
    /// The names of the tables.
    pub names: Vec<Name>,
    /// The tables, with the indexes that the lenses need.
    pub tables: Tables,
}

/// Takes the definitions in order, or tells the first that is refused.
pub fn admit_all<L: Ledger>(
    alloc: Global,
    definitions: Vec<Text>,
    walked: &mut Steps<L>,
) -> Result<Admitted, OpenFault>
    ensures admitted { AreAdmitted result definitions.items }
    ensures empty { IfOk result HasEmptyTables }
    ensures walked { walked.new ≡ walked.old }
{
    let mut admitted = Admitted {
        catalog: Catalog::new(alloc),
        names: Vec::new(alloc),
        tables: Tables::new(alloc),
    };
    for text in definitions {
        let place = admitted.catalog.definitions().len();
        if let Err(why) = admit(alloc, &mut admitted, text, walked) {
            return Err(refused_at(place, why));
        }
    }
    Ok(admitted)
}

/// Takes one definition more, with its table, if it is one, and the indexes that its lens needs.
fn admit<L: Ledger>(
    alloc: Global,
    admitted: &mut Admitted,
    text: Text,
    walked: &mut Steps<L>,
) -> Result<(), CatalogFault>
    requires empty { HasEmptyTables admitted.old }
    ensures texts { OnOk result (admitted.new.catalog.texts
        ≡ admitted.old.catalog.texts ++ text ∷ []) }
    ensures taken { OnOk result (IsOk
        (judged (catalogue admitted.old.catalog.texts) (reading text))) }
    ensures names { HasTables (catalogue admitted.old.catalog.texts) admitted.old.names.items
        → OnOk result
        (HasTables (catalogue admitted.new.catalog.texts) admitted.new.names.items) }
    ensures empty { OnOk result (HasEmptyTables admitted.new) }
    ensures walked { walked.new ≡ walked.old }
    ensures err { IfErr result (λ why. IsRefused why
        (judged (catalogue admitted.old.catalog.texts) (reading text))) }
{
    let prepared = admitted.catalog.prepare(alloc, text)?;
    let table = prepared.table();
    let staged = stage_definition(alloc, &mut admitted.tables, &table, prepared.lens(), walked);
    if staged.is_err() || append(&mut admitted.names, table).is_err() {
        drop(prepared);
        return Err(CatalogFault::NoMemory);
    }
    admitted.catalog.admit(prepared);
    admitted.tables.settle();
    Ok(())
}

/// Adds the name, if there is one.
fn append(names: &mut Vec<Name>, name: Option<Name>) -> Result<(), NoMemory>
    ensures { OnOk result (names.new.items ≡ names.old.items ++ option_to_list name) }
{
    if let Some(name) = name {
        names.push(name)?;
    }
    Ok(())
}

/// Why a server is not started where the definition at this place is refused.
fn refused_at(index: usize, why: CatalogFault) -> OpenFault
    ensures { IsRefusedAt index why result }
{
    match why {
        CatalogFault::NoMemory => OpenFault::NoMemory,
        CatalogFault::Lang { .. }
        | CatalogFault::NameTaken { .. }
        | CatalogFault::UnknownName { .. }
        | CatalogFault::Rule { .. } => OpenFault::Damaged {
            damage: Damage::Definition { index },
        },
    }
}
