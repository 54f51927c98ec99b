// A scan of the lent lease table: one record after the other is shown to a test, and noted where it
// passes. Every search in the table is such a scan.
ghost use Rattle.std.specs.Prelude.{◌≡◌, Bool, cond};
ghost use mathlib.Core.List.{foldl};
ghost use Rattle.lease.specs.declared.Lease.{Lease};

use lease::Lease;

// What a scan carries from record to record.
pub trait Carried {
    // Whether there is nothing to look for.
    ghost off: { Self → Bool };

    // Whether a record is to be noted.
    ghost wants: { Self → Lease → Bool };

    // What is carried with one record more.
    ghost add: { Self → Lease → Self };

    fn is_off(&self) -> bool
        ensures { result ≡ off self.now };

    fn does_want(&self, x: Lease) -> bool
        ensures { result ≡ wants self.now x };

    fn note(&mut self, x: Lease)
        ensures { self.new ≡ add self.old x };
}

// The records of a table, where anything is looked for.
pub fn scan<A: Carried>(t: &[Lease], mut a: A) -> A
    ensures { result ≡ cond (A.off a) a (foldl (λ acc x. cond (A.wants acc x) (A.add acc x) acc) a t.now) }
{
    if a.is_off() {
        return a;
    }
    for x in t {
        if a.does_want(*x) {
            a.note(*x);
        }
    }
    a
}
