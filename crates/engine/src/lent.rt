// The lists that a caller lends for a sync: one to work in, and one to be filled with the conflicts.
use crate::answers::Reported;
use lists::FrontList;
use stores::entry::Slot;

pub type WorkList<'w> = FrontList<'w, Slot>;

pub type ReportList<'r> = FrontList<'r, Reported>;

// References, each with a lifetime of its own: so what a call promises of the lists reaches whoever lent them.
#[derive(Drop)]
pub struct Lists<'a, 'b, 'w, 'r> {
    pub work: &'a mut WorkList<'w>,
    pub report: &'b mut ReportList<'r>,
}
