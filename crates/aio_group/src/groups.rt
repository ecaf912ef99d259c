//! The groups by number.
ghost use Rattle.std.specs.Prelude.{◌≡◌, ◌++◌, ◌∷◌, ◌&&◌, not, [], true, false, None, IfOk, OnOk, OnErr, length};
ghost use Rattle.model_loop.specs.Cancel.{has_seen};
ghost use Rattle.model_loop.specs.Loop.{Loop};
ghost use Rattle.model_loop.specs.Groups as plain;
ghost use Rattle.model_loop.specs.Parts.{profile_named};
ghost use Rattle.model_loop.specs.Tasks.{next_task};
ghost use Rattle.aio_task.specs.Keeps.{NameMap};
ghost use Rattle.aio_task.specs.View.{View};
ghost use Rattle.aio_group.specs.Answers.{created_of, exit_of};
ghost use Rattle.aio_group.specs.GoesOn.{Moves};
ghost use Rattle.aio_group.specs.Held.{new_held, held_at};
ghost use Rattle.aio_group.specs.Stands.{AllBelong, GroupsStand, Came};

use crate::created::Created;
use crate::exit::GroupExit;
use crate::group::Group;
use crate::{children, exits};
use aio_base::{Exc, Input, Memory};
use aio_task::Parts;
use std::alloc::Global;
use std::marker::Model;

/// The task groups, which are numbered from 0 in order of making. They belong to one `Parts`: the
/// tasks and futures that a group keeps are live there. Contracts see the list of groups. A call
/// that answers `Memory` leaves them, and the parts, as they were.
#[derive(Drop)]
pub struct Groups {
    held: Vec<Group>,
}

impl Model for Groups {
    ghost use Rattle.std.specs.Prelude.{List};
    ghost use Rattle.std.specs.Coded.{coded_list};
    ghost use Rattle.aio_group.specs.Held.{Held};
    ghost use Rattle.aio_group.specs.Code.{coded_held};

    ghost Value = { List Held };

    ghost coded = { coded_list coded_held };

    ghost view = { λ a. a.held.items };
}

impl Groups {
    /// No groups.
    pub fn new(alloc: Global) -> Result<Groups, Memory>
        ensures { IfOk result (λ groups. groups ≡ []) }
    {
        Ok(Groups {
            held: Vec::new(alloc),
        })
    }

    /// How many groups there are.
    pub fn len(&self) -> usize
        ensures { result ≡ length self.now }
    {
        self.held.len()
    }

    /// A group of a task, its parent, and its number.
    pub fn make(&mut self, alloc: Global, parent: u32) -> Result<u32, Memory>
        ensures number { IfOk result (λ id. id ≡ length self.old) }
        ensures after { OnOk result (self.new ≡ self.old ++ new_held parent ∷ []) }
        ensures belongs { OnOk result ((v : View) → AllBelong v self.old → AllBelong v self.new) }
        ensures stands { OnOk result ((t : NameMap) (v : View) (l : Loop)
            → GroupsStand t self.old v l
            → GroupsStand t self.new v (plain.make_group parent l)) }
        ensures err { OnErr result (self.new ≡ self.old) }
    {
        let Ok(id) = u32::try_from(self.held.len()) else {
            return Err(Memory);
        };
        self.held.push(Group::new(alloc, parent))?;
        Ok(id)
    }

    /// `__aenter__`, of a group that isn't entered.
    pub fn enter(&mut self, id: u32)
        requires fresh { (held_at self.old id).entered ≡ false }
        ensures belongs { (v : View) → AllBelong v self.old → AllBelong v self.new }
        ensures stands { (t : NameMap) (v : View) (l : Loop) → GroupsStand t self.old v l
            → GroupsStand t self.new v (plain.enter_group id l) }
    {
        let Some(group) = self.held.get_mut(id as usize) else {
            return;
        };
        group.enter();
    }

    /// `create_task`: a new task, whose group is told when it is done. A group that isn't entered,
    /// is finished or is shutting down refuses it, by the first of these that holds.
    pub fn create(&mut self, alloc: Global, id: u32, parts: &mut Parts) -> Result<Created, Memory>
        requires idle { parts.old.called ≡ None }
        requires belongs { AllBelong parts.old self.old }
        ensures belongs { AllBelong parts.new self.new }
        ensures moves { Moves parts.old parts.new }
        ensures stands { IfOk result
            (λ created. (t : NameMap) (l : Loop) → GroupsStand t self.old parts.old l
            → Came t l self.new parts.new (plain.create id l)
            × (created ≡ created_of (plain.refusal (plain.group_of l id)) (next_task l.parts))) }
        ensures err { OnErr result ((self.new ≡ self.old) × (parts.new ≡ parts.old)) }
    {
        let Some(group) = self.held.get_mut(id as usize) else {
            return Ok(Created::NotEntered);
        };
        if let Some(refused) = group.refuses() {
            return Ok(refused);
        }
        let task = children::create(alloc, id, group, parts)?;
        Ok(Created::Task(task))
    }

    /// A child of the group is done. It takes no memory: the place of its failure was made with it.
    pub fn child_done(&mut self, id: u32, child: u32, parts: &mut Parts)
        requires idle { parts.old.called ≡ None }
        requires belongs { AllBelong parts.old self.old }
        requires child { has_seen (held_at self.old id).children child ≡ true }
        ensures belongs { AllBelong parts.new self.new }
        ensures moves { Moves parts.old parts.new }
        ensures stands { (t : NameMap) (l : Loop) → GroupsStand t self.old parts.old l
            → Came t l self.new parts.new (plain.child_done id child l) }
    {
        let Some(group) = self.held.get_mut(id as usize) else {
            return;
        };
        children::child_done(child, group, parts);
    }

    /// The block of an entered group ends, by an exception or by none. Where children are left the
    /// exit waits for the future of the answer.
    pub fn exit_begin(
        &mut self,
        alloc: Global,
        id: u32,
        raised: Option<Exc>,
        parts: &mut Parts,
    ) -> Result<GroupExit, Memory>
        requires idle { parts.old.called ≡ None }
        requires belongs { AllBelong parts.old self.old }
        requires entered { (held_at self.old id).entered ≡ true }
        requires fresh { (held_at self.old id).exiting ≡ false }
        ensures belongs { AllBelong parts.new self.new }
        ensures moves { Moves parts.old parts.new }
        ensures stands { IfOk result (λ exit. (t : NameMap) (l : Loop)
            → GroupsStand t self.old parts.old l
            → l.profile ≡ profile_named parts.old.profile
            → Came t l self.new parts.new (plain.exit_begin raised id l).loop
            × (exit_of exit ≡ (plain.exit_begin raised id l).answer)) }
        ensures err { OnErr result ((self.new ≡ self.old) × (parts.new ≡ parts.old)) }
    {
        let Some(group) = self.held.get_mut(id as usize) else {
            return Ok(GroupExit::Passes);
        };
        exits::exit_begin(alloc, raised, group, parts)
    }

    /// The exit, which has begun and hasn't ended, goes on after its wait, with a value or a
    /// CancelledError: it waits for another future, or it ends.
    pub fn exit_woken(
        &mut self,
        alloc: Global,
        id: u32,
        input: Input,
        parts: &mut Parts,
    ) -> Result<GroupExit, Memory>
        requires idle { parts.old.called ≡ None }
        requires belongs { AllBelong parts.old self.old }
        requires going { ((held_at self.old id).exiting && not (held_at self.old id).ended) ≡ true }
        ensures belongs { AllBelong parts.new self.new }
        ensures moves { Moves parts.old parts.new }
        ensures stands { IfOk result (λ exit. (t : NameMap) (l : Loop)
            → GroupsStand t self.old parts.old l
            → l.profile ≡ profile_named parts.old.profile
            → Came t l self.new parts.new (plain.exit_woken input id l).loop
            × (exit_of exit ≡ (plain.exit_woken input id l).answer)) }
        ensures err { OnErr result ((self.new ≡ self.old) × (parts.new ≡ parts.old)) }
    {
        let Some(group) = self.held.get_mut(id as usize) else {
            return Ok(GroupExit::Passes);
        };
        exits::exit_woken(alloc, input, group, parts)
    }
}
