// Steps are noted behind those of the lines made so far, where the next line will have them.
ghost use Rattle.std.specs.Prelude.{[], ◌∷◌, ◌<◌};
ghost use Rattle.workspace.specs.Areas.{most_steps};
ghost use Rattle.workspace.specs.Desk.{Notes};

use crate::Desk;
use crate::areas::STEPS_START;
use layout::STEP_WIDTH;
use writing::put_step;

impl<'a> Desk<'a> {
    // A step, as the one of number at.
    pub fn note_step(&mut self, at: usize, reference: usize, back: bool, place: u8)
        requires { (at < most_steps) × (reference < 65536) }
        ensures { Notes self.old at (record { reference = reference; back = back; place = place } ∷ []) self.new }
    {
        put_step(
            self.work,
            STEPS_START + STEP_WIDTH * at,
            reference,
            back,
            place,
        );
    }
}
