ghost use Rattle.std.specs.Prelude.{◌≡◌, ◌≤◌, ◌<◌, ◌^◌, ◌++◌, length, map, take, drop, reverse, IfOk, OnOk, OnErr};
ghost use Rattle.wat_value.specs.declared.change.Act.TheVariants.{OnRow};
ghost use Rattle.wat_schema.specs.Tables.{inverse};
ghost use Rattle.wat_history.specs.Connection.{back_from};
ghost use Rattle.wat_steps.specs.Answering.{no_changes};
ghost use Rattle.wat_steps.specs.Statements.{with_savepoint};
ghost use Rattle.wat_connection.specs.Transactions.{GoesBack, Releases};

use crate::savepoints::{Savepoint, up_to_newest};
use std::alloc::{AllocError, Global};
use std::marker::Model;
use wat_list::{Copied, Items, NoMemory, Reserved};
use wat_name::Name;
use wat_value::{Act, Acts, Change};

/// What going back to a savepoint undoes.
#[derive(Drop)]
pub struct Undone {
    /// How many changes of the transaction are left.
    pub left: u32,
    /// The inverses of the others, the last one first.
    pub acts: Acts,
}

/// An open transaction: its changes that are not undone, and its savepoints. It takes at most 4,294,967,295 changes.
#[derive(Drop)]
pub struct Transaction {
    standing: Vec<Change>,
    savepoints: Vec<Savepoint>,
}

impl Model for Transaction {
    ghost use Rattle.std.specs.Prelude.{◌<◌, ◌^◌, length};
    ghost use Rattle.wat_steps.specs.State.{OpenTransaction};
    ghost use Rattle.wat_connection.specs.Savepoints.{AreNested, saves_of};

    ghost Value = { OpenTransaction };

    ghost view = { λ t. record { standing = t.standing.items; savepoints = saves_of t.savepoints.items } };

    ghost invariant = { λ t. (length t.standing.items < 2 ^ 32) × AreNested (length t.standing.items) (saves_of t.savepoints.items) };
}

fn inverse(change: Change) -> Change
    ensures { result ≡ inverse change }
{
    match change {
        Change::Insert { table, row } => Change::Delete { table, before: row },
        Change::Update {
            table,
            before,
            after,
        } => Change::Update {
            table,
            before: after,
            after: before,
        },
        Change::Delete { table, before } => Change::Insert { table, row: before },
    }
}

/// Takes the changes behind the first so many out, and gives what undoes them, the last one first.
fn take_back(alloc: Global, changes: &mut Vec<Change>, left: usize) -> Result<Acts, NoMemory>
    ensures left { OnOk result (changes.new.items ≡ take left changes.old.items) }
    ensures acts { IfOk result (λ acts. acts ≡ map (λ change. OnRow (inverse change)) (reverse (drop left changes.old.items))) }
    ensures err { OnErr result (changes.new.items ≡ changes.old.items) }
{
    let mut acts = Reserved::with_room(alloc, changes.len().saturating_sub(left))?;
    while changes.len() > left {
        match changes.pop() {
            Some(change) => acts.push(Act::OnRow(inverse(change))),
            None => unreachable!(),
        }
    }
    Ok(acts.into_items())
}

/// The acts that make these changes.
pub fn acts_of(alloc: Global, changes: &[Change]) -> Result<Acts, NoMemory>
    ensures { IfOk result (λ acts. acts ≡ map OnRow changes.now) }
{
    let mut acts = Items::new(alloc);
    for change in changes {
        acts.push(Act::OnRow(change.copy(alloc)?))?;
    }
    Ok(acts)
}

impl Transaction {
    /// One without changes and savepoints.
    pub fn new(alloc: Global) -> Self
        ensures { result ≡ no_changes }
    {
        Transaction {
            standing: Vec::new(alloc),
            savepoints: Vec::new(alloc),
        }
    }

    /// The changes that stand, the first one first.
    pub fn standing(&self) -> &[Change]
        ensures standing { result.now ≡ self.now.standing }
        ensures few { length self.now.standing < 2 ^ 32 }
    {
        self.standing.as_slice()
    }

    /// These changes stand, too.
    pub fn note(&mut self, changes: Vec<Change>) -> Result<(), NoMemory>
        ensures ok { OnOk result (self.new ≡ record self.old { standing = self.old.standing ++ changes.items }) }
        ensures err { OnErr result (self.new ≡ self.old) }
    {
        let mut changes = changes;
        if changes.len() > u32::MAX as usize - self.standing.len() {
            return Err(AllocError);
        }
        self.standing.append(&mut changes)
    }

    /// Sets a savepoint.
    pub fn set_savepoint(&mut self, name: Name) -> Result<(), NoMemory>
        ensures ok { OnOk result (self.new ≡ with_savepoint name self.old) }
        ensures err { OnErr result (self.new ≡ self.old) }
    {
        let standing = self.standing.len() as u32;
        self.savepoints.push(Savepoint { name, standing })?;
        Ok(())
    }

    /// Goes back to the newest savepoint of the name, if there is one.
    pub fn back_to(&mut self, alloc: Global, name: &Name) -> Result<Option<Undone>, NoMemory>
        ensures back { IfOk result (GoesBack (back_from name.now self.old.savepoints) self.old self.new) }
        ensures err { OnErr result (self.new ≡ self.old) }
    {
        let Some(n) = up_to_newest(self.savepoints.as_slice(), name) else {
            return Ok(None);
        };
        let left = self.savepoints[n - 1].standing;
        let acts = take_back(alloc, &mut self.standing, left as usize)?;
        self.savepoints.truncate(n);
        Ok(Some(Undone { left, acts }))
    }

    /// Releases the newest savepoint of the name and all later ones, and tells whether there is one.
    pub fn release(&mut self, name: &Name) -> bool
        ensures { Releases (back_from name.now self.old.savepoints) self.old self.new result }
    {
        match up_to_newest(self.savepoints.as_slice(), name) {
            Some(n) => {
                self.savepoints.truncate(n - 1);
                true
            }
            None => false,
        }
    }
}
