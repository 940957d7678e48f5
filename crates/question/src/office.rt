// A sheet as it is asked: at an office's seat.
ghost use Rattle.sheet.specs.Seats.{Seated};

use sheet::{Seat, Sheet};

// A sheet, and the seat from which it is asked.
#[derive(Clone, Copy)]
pub struct OfficeSheet<'a> {
    pub sheet: Sheet<'a>,
    pub seat: Seat,
    pub ghost seated: { Seated seat },
}
