ghost use Rattle.std.specs.Prelude.{◌≡◌, ◌<◌, ℕ, Bool, false, IfOk, OnOk, OnErr};
ghost use Rattle.nb_record.specs.View.{start_of};
ghost use Rattle.nb_command.specs.Printed.{most_printed};
ghost use Rattle.nb_settings.specs.Tables.{TableLists};
ghost use Rattle.nb_machine.specs.Effects.{plan_effect, plan_table, plan_up};
ghost use Rattle.nb_runner.specs.CommandWords.{deed_effect, IsLocal, PrintsAtMost};
ghost use Rattle.nb_runner.specs.World.{IsLinkOfState, bare_world, world_of, world_with};
ghost use Rattle.nb_machine.specs.Starting.{own_port};

use crate::OuterScripts;
use crate::command::{Deed, carry_out};
use crate::link::address_in;
use crate::settings::start_table;
use nb_command::{CommandPlan, State};
use nb_drivecmd::Drives;
use nb_image::Images;
use nb_machine::Identity;
use nb_record::{NoMemory, Start};
use nb_settings::Table;
use nb_stack::Stack;
use std::alloc::Global;

/// What a run has beside its script: its link, its clock, its opens, its settings, its images and its drives.
#[derive(Drop)]
pub struct World {
    /// The number from which the ports of the opens count.
    pub w: u16,
    /// The machine, from whose key opens take their words.
    pub machine: Identity,
    /// Milliseconds since the run's start.
    pub time: u64,
    /// The client that stands on its device.
    pub net: Stack,
    /// How many opens were made.
    pub opens: u16,
    /// Its settings, its images, its drives, and whether its device is up.
    pub state: State,
    /// The scripts outside the one that runs.
    pub outer: OuterScripts,
}

/// The first port of an open; the others are the 16,383 after it.
const FIRST_PORT: u16 = 49_152;

/// How many ports the opens have.
const PORTS: u16 = 16_384;

/// The client's port of the open of this number: no other open of a run has it.
pub fn own_port(w: u16, number: u16) -> u16
    requires w { w < 16384 }
    requires number { number < 16384 }
    ensures { result ≡ own_port w number }
{
    FIRST_PORT + (w + number) % PORTS
}

impl World {
    /// The world before START was used: it has no settings yet, and takes no memory.
    pub fn bare(alloc: Global, start: &Start<'_>) -> World
        ensures { result ≡ bare_world (start_of start.now) }
    {
        let mut world = World {
            w: start.w,
            machine: Identity {
                uuid: start.uuid,
                arch: start.arch,
                key: start.key,
            },
            time: 0,
            net: Stack::new(start.mac),
            opens: 0,
            state: State {
                table: Table::new(alloc),
                images: Images::new(alloc),
                drives: Drives::new(),
                up: false,
            },
            outer: OuterScripts::new(alloc),
        };
        world.follow();
        world
    }

    /// The world of a run that begins with this START. Its device is up where START has an address.
    pub fn of(alloc: Global, start: &Start<'_>) -> Result<World, NoMemory>
        ensures { IfOk result (λ w. w ≡ world_of (start_of start.now)) }
    {
        let mut world = World::bare(alloc, start);
        world.state.table = start_table(alloc, start)?;
        world.state.up = start.ip.0 != 0;
        world.follow();
        Ok(world)
    }

    /// The link follows the settings and the device's state.
    pub fn follow(&mut self)
        ensures { self.new ≡ world_with self.old self.old.state.table self.old.state.up }
    {
        self.net.set_address(address_in(&self.state.table));
        self.net.set_up(self.state.up);
    }

    /// Carries a command out that asks for no file. The link follows what it changed.
    pub fn carry_out(&mut self, alloc: Global, plan: &CommandPlan) -> Result<Deed, NoMemory>
        requires local { IsLocal plan.now }
        requires linked { IsLinkOfState self.old }
        ensures value { IfOk result (λ deed. (opens : ℕ) → plan_effect opens self.old.state.table plan.now ≡ deed_effect deed) }
        ensures after { OnOk result
            (self.new ≡ world_with self.old (plan_table plan.now self.old.state.table) (plan_up plan.now self.old.state.up)) }
        ensures linked { IsLinkOfState self.new }
        ensures same { OnErr result (self.new ≡ self.old) }
        ensures printed { IfOk result (λ deed. PrintsAtMost deed (most_printed plan.now)) }
    {
        let deed = carry_out(alloc, plan, &mut self.state)?;
        if may_move_link(plan) {
            self.follow();
        }
        Ok(deed)
    }
}

/// Whether a command may change settings or the device's state.
fn may_move_link(plan: &CommandPlan) -> bool
    ensures table { result ≡ false → (table : TableLists) → plan_table plan.now table ≡ table }
    ensures up { result ≡ false → (up : Bool) → plan_up plan.now up ≡ up }
{
    matches!(
        plan,
        CommandPlan::Set { .. }
            | CommandPlan::Clear(_)
            | CommandPlan::Inc { .. }
            | CommandPlan::Ifopen(_)
            | CommandPlan::Ifclose(_)
            | CommandPlan::Dhcp(_)
            | CommandPlan::Nslookup { .. }
    )
}
