// Whether a lease table keeps its form.
ghost use Rattle.std.specs.Prelude.{◌≡◌, cond};
ghost use mathlib.Core.List.{foldl};
ghost use Rattle.leasetable.specs.Folds.{form_start, form_off, form_wants, form_add, form_turn};

use crate::scanning::Carried;
use lease::{Lease, form};

// The most records that a table has.
const LONGEST_TABLE: usize = 256;

// What is known of the records passed: whether the table may keep the form, and the last address.
#[derive(Clone, Copy)]
pub struct Form {
    pub ok: bool,
    pub last: u32,
}

// Nothing is passed yet of a table of so many records; too many break the form.
pub fn start(count: usize) -> Form
    ensures { result ≡ form_start count }
{
    Form {
        ok: count <= LONGEST_TABLE,
        last: 0,
    }
}

// No record is read of a table that has too many.
fn is_off(a: Form) -> bool
    ensures { result ≡ form_off a }
{
    !a.ok
}

// A table that was found to break its form is not looked at further.
fn does_want(a: Form, x: Lease) -> bool
    ensures { result ≡ form_wants a x }
{
    a.ok
}

// One record more, whose address is above the last.
#[tactic(auto, unfolding(crate::specs::Folds::form_add))]
fn with_record(a: Form, x: Lease) -> Form
    ensures { result ≡ form_add a x }
{
    let address = x.address;
    if a.last < address && form::is_well_formed(x) {
        return Form {
            ok: true,
            last: address,
        };
    }
    Form { ok: false, last: 0 }
}

// The records of a table. This is the scan whose code the law of proofs/ScanWalk.antt walks.
pub fn scan(t: &[Lease], a: Form) -> Form
    ensures { result ≡ cond (form_off a) a (foldl form_turn a t.now) }
{
    if is_off(a) {
        return a;
    }
    let mut acc = a;
    let mut i = 0;
    while i < t.len() {
        let x = t[i];
        i += 1;
        if does_want(acc, x) {
            acc = with_record(acc, x);
        }
    }
    acc
}

// The same tests and the same step, for the scan that takes anything that is carried.
impl Carried for Form {
    ghost off = { form_off };

    ghost wants = { form_wants };

    ghost add = { form_add };

    fn is_off(&self) -> bool {
        is_off(*self)
    }

    fn does_want(&self, x: Lease) -> bool {
        does_want(*self, x)
    }

    fn note(&mut self, x: Lease) {
        *self = with_record(*self, x);
    }
}
