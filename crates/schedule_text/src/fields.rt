ghost use Rattle.std.specs.Prelude.{◌≡◌, ℕ, ◌^◌, ◌≤◌, ◌<◌, length, IsTrue, Some, IfSome, IfNone, IfOk};
ghost use Rattle.std.specs.List.{list_all};
ghost use Rattle.std.specs.Option.{option_copied};
ghost use Rattle.std.specs.Str.{bytes_eq};
ghost use Rattle.std.specs.Str.Parse.{digits_value};
ghost use Rattle.schedule_text.specs.Fields.{cut, next, ended, text_at, field_at, digit, is_numeral, number_of, rank_of, name_of, service_of, side_of, timer_of, Is, Steps};
ghost use Rattle.schedule_text.specs.Lines.{Gives, GivesStep};
ghost use Rattle.schedule_text.specs.Words.{printable, timer_text};

use crate::refusal::{LineRefused, ScheduleKind};
use crate::words::timer_word;
use memchr::memchr;
use mon_bytes::{Name, OutOfMemory, Text};
use mon_types::{GREATEST, Moment, Rank, Side, Version};
use mon_wire::{Service, Timer};
use std::alloc::Global;
use std::marker::Model;

/// The bytes up to the first separator, and those after it.
pub fn cut(separator: u8, bytes: &[u8]) -> (&[u8], Option<&[u8]>)
    ensures first { result.0.now ≡ (cut separator bytes.now).0 }
    ensures rest { option_copied result.1 ≡ (cut separator bytes.now).1 }
    ensures shorter { IfSome result.1 (λ x. length x.now < length bytes.now) }
{
    match memchr(separator, bytes) {
        Some(end) => (&bytes[..end], Some(&bytes[end + 1..])),
        None => (bytes, None),
    }
}

fn all_digits(field: &[u8]) -> bool
    ensures { result ≡ list_all digit field.now }
{
    field.iter().all(|b| *b >= 48 && *b <= 57)
}

/// Whether the field is a decimal number without a leading zero.
fn is_numeral(field: &[u8]) -> bool
    ensures { result ≡ is_numeral field.now }
{
    match field {
        [] => false,
        [b'0', _, ..] => false,
        _ => all_digits(field),
    }
}

/// The value of the digits, if it fits in 64 bits.
fn value_of(field: &[u8]) -> Option<u64>
    requires { IsTrue (is_numeral field.now) }
    ensures some { IfSome result (λ n. n ≡ digits_value 10 field.now) }
    ensures none { IfNone result (2 ^ 64 ≤ digits_value 10 field.now) }
{
    let Ok(text) = str::from_utf8(field) else {
        unreachable!()
    };
    match text.parse::<u64>() {
        Ok(n) => Some(n),
        Err(_) => None,
    }
}

/// The number that the field represents, if it is within these bounds.
#[tactic(auto, unfolding(crate::specs::Fields::number_of))]
pub fn number_of(field: &[u8], least: u64, most: u64) -> Result<u64, ScheduleKind>
    ensures value { Is (λ n. n) result (number_of least most field.now) }
    ensures least { IfOk result (λ n. least ≤ n) }
    ensures most { IfOk result (λ n. n ≤ most) }
{
    if !is_numeral(field) {
        return Err(ScheduleKind::Number);
    }
    match value_of(field) {
        Some(n) if n >= least && n <= most => Ok(n),
        _ => Err(ScheduleKind::Number),
    }
}

/// The rank that the field represents, if it is below this number of monitors.
#[tactic(auto, unfolding(crate::specs::Fields::rank_of))]
fn rank_of(field: &[u8], monitors: u8) -> Result<Rank, ScheduleKind>
    requires { monitors ≤ 15 }
    ensures { Is (λ n. n) result (rank_of monitors field.now) }
{
    if !is_numeral(field) {
        return Err(ScheduleKind::Number);
    }
    match value_of(field) {
        Some(n) if n < u64::from(monitors) => Ok(Rank::known(n as u8)),
        _ => Err(ScheduleKind::Rank),
    }
}

#[tactic(auto, unfolding(crate::specs::Fields::service_of))]
fn service_of(field: &[u8]) -> Result<Service, ScheduleKind>
    ensures { Is (λ x. x) result (service_of field.now) }
{
    if field == b"kv".as_slice() {
        return Ok(Service::Kv);
    }
    if field == b"log".as_slice() {
        return Ok(Service::Log);
    }
    Err(ScheduleKind::Word)
}

#[tactic(auto, unfolding(crate::specs::Fields::side_of))]
fn side_of(field: &[u8]) -> Result<Side, ScheduleKind>
    ensures { Is (λ x. x) result (side_of field.now) }
{
    if field == b"a".as_slice() {
        return Ok(Side::A);
    }
    if field == b"b".as_slice() {
        return Ok(Side::B);
    }
    Err(ScheduleKind::Word)
}

/// Whether the field is the timer's word.
fn is_timer(field: &[u8], timer: Timer) -> bool
    ensures { result ≡ bytes_eq field.now (timer_text timer) }
{
    field == timer_word(timer).as_bytes()
}

#[tactic(auto, unfolding(crate::specs::Fields::timer_of))]
fn timer_of(field: &[u8]) -> Result<Timer, ScheduleKind>
    ensures { Is (λ x. x) result (timer_of field.now) }
{
    for timer in &Timer::ALL {
        if is_timer(field, *timer) {
            return Ok(*timer);
        }
    }
    Err(ScheduleKind::Word)
}

#[tactic(auto, unfolding(crate::specs::Fields::name_of))]
fn name_of(alloc: Global, field: &[u8]) -> Result<Name, LineRefused>
    ensures { Gives (λ x. x) result (name_of field.now) }
{
    let key = Vec::from_slice(alloc, field).map_err(OutOfMemory::from)?;
    match Name::new(key) {
        Some(key) => Ok(key),
        None => Err(LineRefused::Kind(ScheduleKind::Word)),
    }
}

pub fn all_printable(bytes: &[u8]) -> bool
    ensures { result ≡ list_all printable bytes.now }
{
    // Without a branch for each byte, so that many are tested at once.
    let mut printable = true;
    for b in bytes {
        printable = printable & ((*b >= 32) & (*b <= 126));
    }
    printable
}

fn printable_text(alloc: Global, bytes: &[u8]) -> Result<Text, OutOfMemory>
    requires { IsTrue (list_all printable bytes.now) }
    ensures { IfOk result (λ text. text ≡ bytes.now) }
{
    match Text::new(Vec::from_slice(alloc, bytes)?) {
        Some(text) => Ok(text),
        None => unreachable!(),
    }
}

/// The rest of a line that isn't read yet, or `None` after the last field.
#[derive(Drop)]
pub struct Fields<'a> {
    rest: Option<&'a [u8]>,
}

impl<'a> Model for Fields<'a> {
    ghost use Rattle.std.specs.Prelude.{List, ℕ, Option};
    ghost use Rattle.std.specs.Option.{option_copied};

    ghost Value = { Option (List ℕ) };

    ghost view = { λ f. option_copied f.rest };
}

impl<'a> Fields<'a> {
    pub fn new(line: &'a [u8]) -> Fields<'a>
        ensures { result ≡ Some line.now }
    {
        Fields { rest: Some(line) }
    }

    /// The next field, which must not be empty.
    pub fn next(&mut self) -> Result<&'a [u8], ScheduleKind>
        ensures { Steps (λ x. x.now) result self.new (next self.old) }
    {
        match self.rest {
            None => Err(ScheduleKind::Word),
            Some(bytes) => {
                let (field, rest) = cut(b' ', bytes);
                if field.is_empty() {
                    return Err(ScheduleKind::Word);
                }
                self.rest = rest;
                Ok(field)
            }
        }
    }

    /// The rest of the line, which must be there.
    pub fn text(&mut self, alloc: Global) -> Result<Text, LineRefused>
        ensures { Gives (λ x. x) result (text_at self.old) }
    {
        match self.rest {
            None => Err(LineRefused::Kind(ScheduleKind::Word)),
            Some(bytes) => {
                if !all_printable(bytes) {
                    return Err(LineRefused::Kind(ScheduleKind::Word));
                }
                Ok(printable_text(alloc, bytes)?)
            }
        }
    }

    /// Returns `x` if the line has no further field.
    pub fn end<T: Drop>(&mut self, x: T) -> Result<T, ScheduleKind>
        ensures { Is (λ y. y) result (ended self.old x) }
    {
        match self.rest {
            None => Ok(x),
            Some(_) => Err(ScheduleKind::Word),
        }
    }

    /// The next field as a number within these bounds.
    #[tactic(auto, unfolding(crate::specs::Fields::field_at))]
    pub fn number(&mut self, least: u64, most: u64) -> Result<u64, ScheduleKind>
        ensures value { Steps (λ n. n) result self.new (field_at (number_of least most) self.old) }
        ensures least { IfOk result (λ n. least ≤ n) }
        ensures most { IfOk result (λ n. n ≤ most) }
    {
        let field = self.next()?;
        number_of(field, least, most)
    }

    pub fn moment(&mut self) -> Result<Moment, ScheduleKind>
        ensures { Steps (λ n. n) result self.new (field_at (number_of 0 (2 ^ 62)) self.old) }
    {
        let n = self.number(0, GREATEST)?;
        Ok(Moment::known(n))
    }

    pub fn version(&mut self) -> Result<Version, ScheduleKind>
        ensures { Steps (λ n. n) result self.new (field_at (number_of 0 (2 ^ 62)) self.old) }
    {
        let n = self.number(0, GREATEST)?;
        Ok(Version::known(n))
    }

    #[tactic(auto, unfolding(crate::specs::Fields::field_at))]
    pub fn rank(&mut self, monitors: u8) -> Result<Rank, ScheduleKind>
        requires { monitors ≤ 15 }
        ensures { Steps (λ n. n) result self.new (field_at (rank_of monitors) self.old) }
    {
        let field = self.next()?;
        rank_of(field, monitors)
    }

    #[tactic(auto, unfolding(crate::specs::Fields::field_at))]
    pub fn service(&mut self) -> Result<Service, ScheduleKind>
        ensures { Steps (λ x. x) result self.new (field_at service_of self.old) }
    {
        let field = self.next()?;
        service_of(field)
    }

    #[tactic(auto, unfolding(crate::specs::Fields::field_at))]
    pub fn side(&mut self) -> Result<Side, ScheduleKind>
        ensures { Steps (λ x. x) result self.new (field_at side_of self.old) }
    {
        let field = self.next()?;
        side_of(field)
    }

    #[tactic(auto, unfolding(crate::specs::Fields::field_at))]
    pub fn timer(&mut self) -> Result<Timer, ScheduleKind>
        ensures { Steps (λ x. x) result self.new (field_at timer_of self.old) }
    {
        let field = self.next()?;
        timer_of(field)
    }

    #[tactic(auto, unfolding(crate::specs::Fields::field_at))]
    pub fn name(&mut self, alloc: Global) -> Result<Name, LineRefused>
        ensures { GivesStep (λ x. x) result self.new (field_at name_of self.old) }
    {
        let field = self.next()?;
        name_of(alloc, field)
    }
}
