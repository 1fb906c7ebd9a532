// The frames of the open records.
ghost use Rattle.std.specs.Prelude.{◌≡◌};
ghost use Rattle.state.specs.Open.{with_frames};
ghost use Rattle.state.specs.Frames.{frame_opened, frame_left, sums_around, passed_around, arm_passed, trip_passed};

use crate::bounds::Bounds;
use crate::open::{Frame, Open};
use crate::sums::Sums;
use records::MAX_OPEN;

impl Open {
    // A frame opens: it keeps what is around it.
    #[tactic(auto, unfolding(crate::specs::Frames::frame_opened))]
    pub fn open_frame(&mut self, number: usize, around: Bounds)
        ensures { self.new ≡ with_frames self.old (frame_opened self.old.frames number around) }
    {
        self.frames[number % MAX_OPEN].around = around;
    }

    // A frame is left.
    #[tactic(auto, unfolding(crate::specs::Frames::frame_left))]
    pub fn leave_frame(&mut self, number: usize)
        ensures { self.new ≡ with_frames self.old (frame_left self.old.frames number) }
    {
        self.frames[number % MAX_OPEN] = Frame::blank();
    }

    // A least and a most go to what is around a frame.
    #[tactic(auto, unfolding(crate::specs::Frames::sums_around))]
    pub fn add_around(&self, number: usize, more: Bounds, sums: &mut Sums)
        ensures { sums.new ≡ sums_around self.now.frames number more sums.old }
    {
        sums.passed = self.frames[number % MAX_OPEN].around.plus(more);
    }

    // The open arm joins the arms passed of a frame, the first of them or a further one.
    #[tactic(auto, unfolding(crate::specs::Frames::arm_passed))]
    pub fn pass_arm(&mut self, number: usize, arm: Bounds)
        ensures { self.new ≡ with_frames self.old (arm_passed self.old.frames number arm) }
    {
        let passed = &mut self.frames[number % MAX_OPEN].passed;
        if passed.arm == 0 {
            passed.bounds = arm;
            passed.arm = 1;
        } else {
            passed.bounds = passed.bounds.joined(arm);
        }
    }

    // The open trip joins the trips visited before of the walked loop that has the frame.
    #[tactic(auto, unfolding(crate::specs::Frames::trip_passed))]
    pub fn pass_trip(&mut self, number: usize, trip: Bounds)
        ensures { self.new ≡ with_frames self.old (trip_passed self.old.frames number trip) }
    {
        let passed = &mut self.frames[number % MAX_OPEN].passed;
        passed.bounds = passed.bounds.plus(trip);
    }

    // The frame of a choice or a walked loop is left, and what it passed goes to what is around it.
    #[tactic(auto, unfolding(crate::specs::Frames::passed_around))]
    pub fn close_frame(&mut self, number: usize, sums: &mut Sums)
        ensures sums_after { sums.new ≡ passed_around self.old.frames number sums.old }
        ensures opened_after { self.new ≡ with_frames self.old (frame_left self.old.frames number) }
    {
        let passed = self.frames[number % MAX_OPEN].passed.bounds;
        self.add_around(number, passed, sums);
        self.leave_frame(number);
    }
}
