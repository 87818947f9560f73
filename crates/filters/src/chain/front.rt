//! The tables in front of a chain.
ghost use Rattle.std.specs.Prelude.{◌≡◌, ◌≤◌, length, take};
ghost use Rattle.frame_view.specs.Frame.{line_of};
ghost use Rattle.filters.specs.ChainImage.{IsImageByAll, value_of};
ghost use Rattle.filters.specs.Front.{front_of};

use crate::chain::Chain;
use crate::in_place::apply_in_place;
use crate::op::Op;
use crate::op::facts::is_table;
use frame_view::Frame;

/// Makes a frame its own image by the tables in front.
pub fn apply_front(chain: &Chain, frame: &mut Frame)
    ensures geometry { frame.new.geometry ≡ frame.old.geometry }
    ensures line { line_of frame.new ≡ line_of frame.old }
    ensures image { IsImageByAll (take (front_of chain.now) chain.now.ops)
        (value_of frame.old) (value_of frame.new) }
{
    for op in chain.ops() {
        let Op::Table(table) = *op else {
            return;
        };
        apply_in_place(table, frame);
    }
}

impl Chain {
    /// How many tables stand before the first other operation. They need no canvas, since they can be done in
    /// the frame itself.
    pub fn front(&self) -> usize
        ensures value { result ≡ front_of self.now }
        ensures inside { result ≤ length self.now.ops }
    {
        self.ops().iter().take_while(|op| is_table(op)).count()
    }
}
