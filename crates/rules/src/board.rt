// The pause board: a mark for each of eight zones. A hold borrows the board, sets one mark, and puts the former mark back at its end.
ghost use Rattle.std.specs.Prelude.{◌≡◌, ◌≤◌, true, false, replicate};
ghost use Rattle.messages.specs.Refusals.{numbered};
ghost use Rattle.rules.specs.Boards.{paused_at, with_mark, open_at, both_open};

use messages::refusals::Refusal;

// The marks of zones 0 to 7.
#[derive(Clone, Copy)]
pub struct PauseBoard {
    marks: [bool; 8],
}

impl PauseBoard {
    // No zone is paused.
    pub fn new() -> PauseBoard
        ensures { result.marks ≡ replicate 8 false }
    {
        PauseBoard { marks: [false; 8] }
    }

    // A zone above 7 is never paused.
    pub fn is_paused(&self, zone: u8) -> bool
        ensures value { result ≡ paused_at self.now zone }
        ensures none_above_seven { 8 ≤ zone → result ≡ false }
    {
        self.marks.get(zone as usize).copied().unwrap_or(false)
    }

    // Refusal 7 where the zone is paused.
    pub fn check_open(&self, zone: u8) -> Result<(), Refusal>
        ensures { numbered result ≡ open_at self.now zone }
    {
        if self.is_paused(zone) {
            return Err(Refusal::ZonePaused);
        }
        Ok(())
    }

    // Sets one mark; nothing where the zone is above 7.
    #[tactic(auto, using(crate::proofs::Boards::mark_past))]
    pub fn mark(&mut self, zone: u8, paused: bool)
        ensures value { self.new ≡ with_mark self.old zone paused }
        ensures none_above_seven { 8 ≤ zone → self.new ≡ self.old }
    {
        // A test and not get_mut: of an array that get_mut lent, a proof knows only the length.
        if zone < 8 {
            self.marks[zone as usize] = paused;
        }
    }

    // Pauses a zone until the hold ends; a zone above 7 holds nothing.
    #[tactic(auto, using(crate::proofs::Boards::mark_back))]
    pub fn hold(&mut self, zone: u8) -> Hold<'_>
        ensures lender { result.board.ghost_name ≡ self.entry.ghost_name }
        ensures value { result.board.now ≡ with_mark self.old zone true }
        ensures zone { result.zone ≡ zone }
        ensures former { result.former ≡ paused_at self.old zone }
        ensures as_found { with_mark result.board.now result.zone result.former ≡ self.old }
        ensures none_above_seven { 8 ≤ zone → result.board.now ≡ self.old }
    {
        let former = self.is_paused(zone);
        self.mark(zone, true);
        Hold {
            board: self,
            zone,
            former,
        }
    }
}

// A standing hold. While it stands, the board is read and written through it alone.
pub struct Hold<'a> {
    board: &'a mut PauseBoard,
    zone: u8,
    former: bool,
}

impl Drop for Hold<'_> {
    // At the end, on every way out, the mark is as found.
    fn drop(self)
        ensures { self.exit.0.now ≡ with_mark self.entry.board.now self.entry.zone self.entry.former }
    {
        let Hold {
            board,
            zone,
            former,
        } = self;
        board.mark(zone, former);
    }
}

impl Hold<'_> {
    // The board as it stands under the hold.
    pub fn board(&self) -> &PauseBoard
        ensures { result.now ≡ self.now.board.now }
    {
        &*self.board
    }

    // Sets one mark through the hold. What is set for the hold's own zone lasts until its end.
    pub fn mark(&mut self, zone: u8, paused: bool)
        ensures value { self.new.board.now ≡ with_mark self.old.board.now zone paused }
        ensures zone { self.new.zone ≡ self.old.zone }
        ensures former { self.new.former ≡ self.old.former }
        ensures lender { self.new.board.ghost_name ≡ self.old.board.ghost_name }
    {
        self.board.mark(zone, paused);
    }
}

// Asks, while one zone is held, whether two others take starts. The board ends as found: at the end and on both early returns.
pub fn open_beside(board: &mut PauseBoard, held: u8, first: u8, second: u8) -> Result<(), Refusal>
    ensures value { numbered result ≡ both_open (with_mark board.old held true) first second }
    ensures as_found { board.new ≡ board.old }
{
    let hold = board.hold(held);
    hold.board().check_open(first)?;
    hold.board().check_open(second)
}

#[cfg(test)]
mod tests {
    use super::*;

    #[test]
    fn hold_ends_on_early_return(rt: HostRuntime) {
        let mut board = PauseBoard::new();
        board.mark(3, true);
        assert_eq!(rt; open_beside(&mut board, 2, 2, 4), Err(Refusal::ZonePaused));
        assert!(rt; !board.is_paused(2));
        assert_eq!(rt; open_beside(&mut board, 3, 4, 3), Err(Refusal::ZonePaused));
        assert!(rt; board.is_paused(3));
        assert_eq!(rt; open_beside(&mut board, 8, 4, 8), Ok(()));
    }

    #[test]
    fn hold_writes_and_ends(rt: HostRuntime) {
        let mut board = PauseBoard::new();
        {
            let mut hold = board.hold(5);
            hold.mark(6, true);
            hold.mark(5, false);
            assert!(rt; !hold.board().is_paused(5));
        }
        assert!(rt; board.is_paused(6));
        assert!(rt; !board.is_paused(5));
    }
}
