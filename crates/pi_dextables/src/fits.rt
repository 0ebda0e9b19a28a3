// The test whether bytes can spell tables. It takes no memory.

ghost use Rattle.std.specs.Prelude.{◌≡◌, ℕ, ◌<◌, ◌^◌, map, length, All, IfSome, IsTrue, ◌↔◌};
ghost use Rattle.std.specs.Cmp.Lexicographic.{slice_cmp};
ghost use Rattle.std.specs.List.Sorted.{IsStrictlySortedBy};
ghost use Rattle.std.specs.Ordering.{nat_cmp};
ghost use Rattle.pi_format.specs.Rules.Values.{value_bytes};
ghost use Rattle.pi_dextables.specs.Writable.{IsHalf, IsWord, ProtoFits, MemberFits, ValueFits, CatchFits, CatchesFit, RangeFits, BodyFits, Rise, FieldFits, MethodFits, ClassFits, IsWritable};

use crate::tables::{
    Body, Catch, Catches, Class, FieldRow, Member, MethodRow, Proto, Range, Tables, Value,
};
use pi_model::listed::{Listed, Units};

/// Whether bytes can spell the tables: strings rise, and numbers fit the places that they have.
pub fn is_writable(tables: &Tables) -> bool
    ensures { IsTrue result ↔ IsWritable tables.now }
{
    strings_rise(tables.strings.as_slice())
        && tables.types.len() <= 65535
        && tables.protos.len() <= 65535
        && tables.strings.does_fit()
        && tables.types.does_fit()
        && tables.protos.does_fit()
        && tables.fields.does_fit()
        && tables.methods.does_fit()
        && tables.classes.does_fit()
}

/// What fits its place in bytes or does not.
trait Fit {
    ghost fits: { Self → Type 0 };

    fn does_fit(&self) -> bool
        ensures { IsTrue result ↔ fits self.now };
}

impl Fit for u16 {
    ghost fits = { IsHalf };

    fn does_fit(&self) -> bool {
        u32::from(*self) < 1 << 16
    }
}

impl Fit for u32 {
    ghost fits = { IsWord };

    fn does_fit(&self) -> bool {
        u64::from(*self) < 1 << 32
    }
}

impl<T: Fit> Fit for Option<T> {
    ghost fits = { λ o. IfSome o T.fits };

    fn does_fit(&self) -> bool {
        match self {
            Some(value) => value.does_fit(),
            None => true,
        }
    }
}

impl<T: Fit> Fit for Listed<T> {
    ghost fits = { All T.fits };

    fn does_fit(&self) -> bool {
        all_fit(self.as_slice())
    }
}

fn all_fit<T: Fit>(xs: &[T]) -> bool
    ensures { IsTrue result ↔ All T.fits xs.now }
{
    for x in xs {
        if !x.does_fit() {
            return false;
        }
    }
    true
}

impl Fit for Proto {
    ghost fits = { ProtoFits };

    fn does_fit(&self) -> bool {
        self.short.does_fit() && self.ret.does_fit() && self.params.does_fit()
    }
}

impl Fit for Member {
    ghost fits = { MemberFits };

    fn does_fit(&self) -> bool {
        self.class.does_fit() && self.kind.does_fit() && self.name.does_fit()
    }
}

impl Fit for Value {
    ghost fits = { ValueFits };

    fn does_fit(&self) -> bool {
        self.kind < 32 && self.arg < 8 && has_bytes(self.number, bytes_of(self.kind, self.arg))
    }
}

/// How many bytes stand behind the first one of a value.
fn bytes_of(kind: u8, arg: u8) -> u32
    ensures { result ≡ value_bytes kind arg }
{
    if kind == 0x1e || kind == 0x1f {
        0
    } else {
        u32::from(arg) + 1
    }
}

/// Whether a number needs no more bytes than that.
fn has_bytes(number: u64, bytes: u32) -> bool
    ensures { IsTrue result ↔ (number < 256 ^ bytes) }
{
    match 256u64.checked_pow(bytes) {
        Some(bound) => number < bound,
        None => true,
    }
}

impl Fit for Catch {
    ghost fits = { CatchFits };

    fn does_fit(&self) -> bool {
        self.ty.does_fit() && self.to.does_fit()
    }
}

impl Fit for Catches {
    ghost fits = { CatchesFit };

    fn does_fit(&self) -> bool {
        (!self.typed.is_empty() || self.last.is_some())
            && self.typed.does_fit()
            && self.last.does_fit()
    }
}

impl Fit for Body {
    ghost fits = { BodyFits };

    fn does_fit(&self) -> bool {
        self.registers.does_fit()
            && self.ins.does_fit()
            && self.outs.does_fit()
            && self.units.does_fit()
            && self.ranges.len() <= 65535
            && (!self.ranges.is_empty() || self.lists.is_empty())
            && ranges_fit(self.ranges.as_slice(), self.lists.as_slice())
            && self.lists.does_fit()
    }
}

fn ranges_fit(ranges: &[Range], lists: &[Catches]) -> bool
    ensures { IsTrue result ↔ All (RangeFits lists.now) ranges.now }
{
    for range in ranges {
        if !range_fits(range, lists) {
            return false;
        }
    }
    true
}

/// Whether a range names one of the lists.
fn range_fits(range: &Range, lists: &[Catches]) -> bool
    ensures { IsTrue result ↔ RangeFits lists.now range.now }
{
    range.from.does_fit() && range.size.does_fit() && (range.list as usize) < lists.len()
}

impl Fit for FieldRow {
    ghost fits = { FieldFits };

    fn does_fit(&self) -> bool {
        self.id.does_fit() && self.flags.does_fit()
    }
}

impl Fit for MethodRow {
    ghost fits = { MethodFits };

    fn does_fit(&self) -> bool {
        self.id.does_fit() && self.flags.does_fit() && self.code.does_fit()
    }
}

impl Fit for Class {
    ghost fits = { ClassFits };

    fn does_fit(&self) -> bool {
        self.class.does_fit()
            && self.flags.does_fit()
            && self.parent.does_fit()
            && self.faces.does_fit()
            && self.values.does_fit()
            && fields_rise(self.statics.as_slice())
            && fields_rise(self.instances.as_slice())
            && methods_rise(self.directs.as_slice())
            && methods_rise(self.virtuals.as_slice())
            && self.statics.does_fit()
            && self.instances.does_fit()
            && self.directs.does_fit()
            && self.virtuals.does_fit()
    }
}

fn fields_rise(rows: &[FieldRow]) -> bool
    ensures { IsTrue result ↔ Rise (map (λ f. f.id) rows.now) }
{
    rows.is_sorted_by(|a, b| a.id <= b.id)
}

fn methods_rise(rows: &[MethodRow]) -> bool
    ensures { IsTrue result ↔ Rise (map (λ m. m.id) rows.now) }
{
    rows.is_sorted_by(|a, b| a.id <= b.id)
}

fn strings_rise(strings: &[Units]) -> bool
    ensures { IsTrue result ↔ IsStrictlySortedBy (slice_cmp nat_cmp) strings.now }
{
    strings.is_sorted_by(|a, b| a.as_slice().cmp(b.as_slice()).is_lt())
}
