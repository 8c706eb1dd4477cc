//! A device with a cache (`World`), which takes steps.
//!
//! A `World` has a cell for each sector, the submissions and ends so far (oldest first), and the
//! bytes of the durable content.
ghost use Rattle.std.specs.Prelude.{◌≡◌, ◌∷◌, ◌*◌, ◌/◌, ◌%◌, ◌<◌, Err, IfOk, OnErr, OnOk};
ghost use Rattle.std.specs.Prelude.{false, true, length, replicate, get_or, reverse, slice_get};
ghost use Rattle.std.specs.Prelude.{slice_set};
ghost use Rattle.bio.specs.Events.{is_lawful};
ghost use Rattle.world.specs.Cells.{IsFresh, PutsSector, StepsWorld, WorldState, empty_cell};
ghost use Rattle.world.specs.Cells.{landed_of, landing, machine_of, settling};
ghost use Rattle.world.specs.Machine.{has_step, newest, values_of_id};
ghost use Rattle.world.specs.declared.step.StepError.TheVariants as errors;
ghost use Rattle.world.specs.inside.{is_allowed};

use crate::allowed::{is_allowed, newest_at};
use crate::cell::{Cell, land_in, settle_in};
use crate::putting::put_newest;
use crate::step::{Step, StepError};
use bio::CoreEvent;
use judge::SECTOR;
use std::alloc::{AllocError, Global};
use std::marker::Model;

/// A device with a cache. Contracts see its state as a `WorldState`, and the machine that it models
/// (`machine_of`).
#[derive(Debug, Drop)]
pub struct World {
    cells: Vec<Cell>,
    calls: Vec<Step>,
    off: bool,
    image: Vec<u8>,
}

impl Model for World {
    ghost Value = { WorldState };

    ghost view = { λ world. record {
      cells = world.cells.items;
      calls = reverse world.calls.items;
      off = world.off;
      image = world.image.items;
    } };

    ghost invariant = { λ world. length world.image.items ≡ 512 * length world.cells.items };
}

// Makes a cell for each of `sectors` sectors on which nothing landed.
fn empty_cells(alloc: Global, sectors: usize) -> Result<Vec<Cell>, AllocError>
    ensures { IfOk result (λ cells. cells.items ≡ replicate sectors empty_cell) }
{
    let mut cells = Vec::new(alloc);
    for _ in 0..sectors {
        cells.push(Cell::new(alloc))?;
    }
    Ok(cells)
}

impl World {
    /// Returns a device that holds the bytes `first`, whole sectors of 512, and has taken no step.
    /// Takes memory for the bytes and 40 bytes for each sector. Lack of memory is the only error.
    pub fn new(alloc: Global, first: &[u8]) -> Result<World, AllocError>
        requires { length first.now % 512 ≡ 0 }
        ensures { IfOk result (IsFresh first.now) }
    {
        let cells = empty_cells(alloc, first.len() / SECTOR)?;
        Ok(World {
            cells,
            calls: Vec::new(alloc),
            off: false,
            image: first.to_vec(alloc)?,
        })
    }

    /// Takes a step. A recorder of the device may have recorded `events` (`is_lawful`); all steps
    /// get the same events. Returns `BadStep` exactly if the device can't take the step
    /// (`has_step`). After an error nothing has changed.
    ///
    /// Takes 24 bytes of memory for a submission or an end, and 8 for a landing. Takes time
    /// proportional to the number of calls so far. An end with success takes time also for the
    /// sectors of each request that has to be settled, and for the landings there.
    pub fn step(&mut self, events: &[CoreEvent], step: &Step) -> Result<(), StepError>
        requires { is_lawful (length self.old.image / 512) events.now ≡ true }
        ensures taken { OnOk result (StepsWorld events.now step.now self.old self.new) }
        ensures refused { OnErr result (self.new ≡ self.old) }
        ensures bad { has_step events.now (machine_of self.old) step.now ≡ false
            → result ≡ Err errors.BadStep }
        ensures good { has_step events.now (machine_of self.old) step.now ≡ true
            → result ≡ Err errors.BadStep → ⊥ }
    {
        if !self.has_step(events, step) {
            return Err(StepError::BadStep);
        }
        self.take(events, step)?;
        Ok(())
    }

    // Returns whether the device can take the step.
    #[tactic(auto, using(crate::proofs::PossibleChoice::lawful_ends, crate::proofs::MachineSteps::allowed_is))]
    fn has_step(&self, events: &[CoreEvent], step: &Step) -> bool
        requires { is_lawful (length self.now.image / 512) events.now ≡ true }
        ensures has { result ≡ has_step events.now (machine_of self.now) step.now }
        ensures sectors { length self.now.image ≡ 512 * length self.now.cells }
    {
        !self.off && is_allowed(&self.cells, &self.calls, events, step)
    }

    // Takes a step that the device can take.
    fn take(&mut self, events: &[CoreEvent], step: &Step) -> Result<(), AllocError>
        requires lawful { is_lawful (length self.old.image / 512) events.now ≡ true }
        requires sectors { length self.old.image ≡ 512 * length self.old.cells }
        requires may { has_step events.now (machine_of self.old) step.now ≡ true }
        ensures taken { OnOk result (StepsWorld events.now step.now self.old self.new) }
        ensures refused { OnErr result (self.new ≡ self.old) }
    {
        match step {
            Step::Submit(_) | Step::End(..) => self.call(step),
            Step::Land(id, sector) => self.land(id.place(), *sector as usize),
            Step::Destage(sector) => {
                self.destage(events, *sector as usize);
                Ok(())
            }
            Step::Power => {
                self.power();
                Ok(())
            }
        }
    }

    // Records a submission or an end.
    fn call(&mut self, step: &Step) -> Result<(), AllocError>
        ensures called { OnOk result
            (self.new ≡ record self.old { calls = step.now ∷ self.old.calls }) }
        ensures refused { OnErr result (self.new ≡ self.old) }
    {
        self.calls.push(*step)?;
        Ok(())
    }

    // Records that the request `id` lands in the sector.
    fn land(&mut self, id: u64, sector: usize) -> Result<(), AllocError>
        requires { sector < length self.old.cells }
        ensures landed { OnOk result (self.new ≡ record self.old {
          cells = slice_set self.old.cells sector
              (landing id (get_or self.old.cells sector empty_cell));
        }) }
        ensures refused { OnErr result (self.new ≡ self.old) }
    {
        land_in(&mut self.cells, sector, id)
    }

    // Destages a sector: puts the value of its newest request in the image.
    fn destage(&mut self, events: &[CoreEvent], sector: usize)
        requires { sector < length self.old.cells }
        ensures cells { self.new ≡ record self.old {
          cells = slice_set self.old.cells sector
              (settling (get_or self.old.cells sector empty_cell));
          image = self.new.image;
        } }
        ensures image { PutsSector (values_of_id events.now
            (newest (landed_of (slice_get self.old.cells sector)))) sector
            self.old.image self.new.image }
    {
        let newest = newest_at(&self.cells, sector);
        put_newest(&mut self.image, events, newest, sector);
        settle_in(&mut self.cells, sector);
    }

    // Turns the power off.
    fn power(&mut self)
        ensures { self.new ≡ record self.old { off = true } }
    {
        self.off = true;
    }

    /// Returns the durable content: the bytes that the device holds after power fails.
    pub fn image(&self) -> &[u8]
        ensures { result.now ≡ self.now.image }
    {
        &self.image
    }
}
