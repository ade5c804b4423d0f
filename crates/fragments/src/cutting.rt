//! The fragments of a script.
ghost use Rattle.std.specs.Prelude.{◌≡◌, IfOk, map};
ghost use Rattle.plan_tree.specs.Pieces.{pieces_of};
ghost use Rattle.std.specs.List.{AllByRecursion};
ghost use Rattle.plan_tree.specs.Views.{planned_of};
ghost use Rattle.plan_tree.specs.WellFormed.{AreWellFormed};
ghost use Rattle.fragments.specs.Homes.{files_known};
ghost use Rattle.fragments.specs.Laws.{Mean};
ghost use Rattle.fragments.specs.Opened.{known_of};
ghost use Rattle.fragments.specs.Premises.{HasNamedFiles, MayCut};
ghost use Rattle.fragments.specs.Scripts.{cut_plans};

use crate::NoMemory;
use crate::known::{Known, Statement};
use crate::tree::cut_statement;
use heap_page::FileMap;
use kept_relations::KeptList;
use lists::Sequence;
use plan_tree::{Fragment, FragmentList, Plan, PlanList};
use rows::{Catalog, KeyIndexList};
use seq_optimizer::{VarStatsList, VarStatsTable};
use std::alloc::Global;

// The fragments of all statements.
fn cut_all(
    alloc: Global,
    known: &Known<'_>,
    plans: &[Plan],
    stats: &[VarStatsList],
) -> Result<Vec<Fragment>, NoMemory>
    requires { MayCut (known_of known.now) stats.now (map planned_of plans.now) }
    ensures { IfOk result (λ fragments. pieces_of fragments.items
        ≡ cut_plans (known_of known.now) stats.now (map planned_of plans.now)) }
{
    let mut fragments = Vec::new(alloc);
    let mut lasts = Vec::new(alloc);
    for (number, plan) in plans.iter().enumerate() {
        let statement = Statement {
            known: *known,
            lasts: &lasts,
            query: &plan.query,
            stats: &stats[number],
        };
        let last = cut_statement(alloc, &statement, &plan.tree, &mut fragments)?;
        lasts.push(last)?;
    }
    Ok(fragments)
}

/// The fragments that the plans of a script are cut into, numbered from 0 in the order of their statements. There are at
/// most 16 plans, each with a tree of its query and one entry of stats for each variable; the relations of the catalogue
/// have their files in the map, and `indexes` has one entry for each index file, in the order of the files. A kept
/// relation is read as the value of the last fragment of the statement that keeps it. The fragments are well formed, so the
/// inputs of each have smaller numbers, and the files that they name are in the map with these kinds and numbers of pages.
/// Over all stored files of the tables, where each index scan has the interval that its query's bounds leave, the value
/// of each statement's last fragment is the meaning of its query, over the tables and over what earlier statements keep.
/// An `Err` is want of memory.
pub fn cut(
    alloc: Global,
    plans: &PlanList,
    catalog: &Catalog,
    files: &FileMap,
    indexes: &KeyIndexList,
    stats: &VarStatsTable,
    kept: &KeptList,
) -> Result<FragmentList, NoMemory>
    requires { MayCut (files_known catalog.now files.now indexes.now kept.now) stats.now (map planned_of plans.now) }
    ensures formed { IfOk result (λ fragments. AreWellFormed (pieces_of fragments)) }
    ensures files { IfOk result (λ fragments. AllByRecursion (HasNamedFiles files.now.files.items) (pieces_of fragments)) }
    ensures means { IfOk result (λ fragments. Mean (files_known catalog.now files.now indexes.now kept.now) stats.now
        (map planned_of plans.now) (pieces_of fragments)) }
    ensures cut { IfOk result (λ fragments. pieces_of fragments
        ≡ cut_plans (files_known catalog.now files.now indexes.now kept.now) stats.now (map planned_of plans.now)) }
{
    let known = Known {
        catalog,
        files: &files.files,
        indexes,
        kept,
    };
    Ok(Sequence::from_vec(cut_all(alloc, &known, plans.items(), stats.items())?))
}
