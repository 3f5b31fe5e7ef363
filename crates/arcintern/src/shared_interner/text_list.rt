//! The texts of a shared interner: a list that threads read without a lock while others add to it.
ghost use Rattle.std.specs.Prelude.{◌≡◌, ◌^◌, ◌<◌, IfOk, IfSome, IsErrOf, length};
ghost use Rattle.boxcar.specs.Table.{id_at};
ghost use Rattle.arcintern.specs.TextList.{IsAt, column_of, number_in, row_in, row_of};
ghost use Rattle.arcintern.specs.Texts.{IsSymbolOf, IsSymbolOfWord};

use crate::fault::InternFault;
use crate::interner::MOST_TEXTS;
use crate::shared_interner::{ROW_VALUES, SharedSymbol};
use arcstr::ArcStr;
use boxcar::slot::{OnceSlot, SlotRule, Written};
use boxcar::tag::Tag;
use std::alloc::{AllocError, Global};
use std::marker::Model;
use std::sync::atomic::{AtomicUsize, Ordering};
use std::sync::{Mutex, Wait};

/// How many rows hold all numbers below `MOST_TEXTS`.
const ROWS: usize = 224;

/// The rule of a place in which any value may stand.
pub(crate) struct AnyValue;

impl<T> SlotRule<T> for AnyValue {
    ghost use Rattle.std.specs.Prelude.{⊤};

    ghost holds = { λ _ _. ⊤ };
}

/// A place for one value, which one thread writes once, and which any thread can then read.
pub(crate) type Place<T> = OnceSlot<T, AnyValue>;

/// The places of some texts.
pub(crate) type Row = Vec<Place<ArcStr>>;

/// A list that only grows, and in which a text stays where it is. It has eight rows of each length,
/// made as they are needed. So in a long list at most about a ninth of the places has no text.
#[derive(Drop)]
pub(crate) struct TextList {
    rows: Vec<Place<Row>>,
    /// A call that makes a row holds the lock.
    making: Mutex<()>,
    /// Keeps what a search reads out of the line of memory that each new text changes.
    apart: [u64; 8],
    /// All numbers below it are taken: by a text, or by a thread that is writing one there.
    next: AtomicUsize,
}

impl Model for TextList {
    ghost use Rattle.std.specs.Prelude.{◌≡◌, List, length};
    ghost use Rattle.boxcar.specs.Slot.{Named};
    ghost use Rattle.arcintern.specs.declared.shared_interner.text_list.TheConstants.{ROWS};

    ghost Value = { List Named };

    ghost view = { λ list. list.rows.items };

    ghost invariant = { λ list. length list.rows.items ≡ ROWS };
}

/// Makes places that are not written.
fn empty_places<T: Drop>(alloc: Global, len: usize) -> Result<Vec<Place<T>>, AllocError>
    ensures { IfOk result (λ places. length places.items ≡ len) }
{
    let mut places = Vec::with_capacity(alloc, len)?;
    while places.len() < len {
        places.push_reserved(OnceSlot::new(&Tag::empty()));
    }
    Ok(places)
}

/// Returns 2 to this power.
fn power_of_two(exponent: usize) -> usize
    requires { exponent < 64 }
    ensures { result ≡ 2 ^ exponent }
{
    1 << exponent
}

/// Returns the index of the row that has the text with this number, and that of its place there.
fn row_and_column(number: usize) -> (usize, usize)
    requires { number < MOST_TEXTS }
    ensures at { IsAt number result.0 result.1 }
    ensures row { result.0 ≡ row_of number }
    ensures column { result.1 ≡ column_of number }
    ensures small { result.0 < ROWS }
{
    let top = (number + 32).ilog2() as usize;
    let (eighths, span) = ((number + 32) * 8, power_of_two(top));
    let row = (top - 5) * 8 + (eighths / span - 8);
    (row, eighths % span / 8)
}

/// Returns the index of the place in this row that has the text with this number.
fn column_in(row: usize, number: usize) -> usize
    requires number { number < MOST_TEXTS }
    requires row { row ≡ row_of number }
    ensures { result ≡ column_of number }
{
    (number + 32) * 8 % power_of_two(row / 8 + 5) / 8
}

/// Returns the bits of a symbol.
fn bits_of(number: usize, row: usize) -> u64
    requires number { number < MOST_TEXTS }
    requires row { row < ROW_VALUES }
    ensures number { number_in result ≡ number }
    ensures row { row_in result ≡ row }
{
    number as u64 * ROW_VALUES + row as u64
}

impl TextList {
    /// Makes a list without texts, with room for this many. No clause sees which rows are made.
    pub(crate) fn with_capacity(alloc: Global, texts: usize) -> Result<TextList, AllocError> {
        let list = TextList {
            rows: empty_places(alloc, ROWS)?,
            making: Mutex::new(()),
            apart: [0; 8],
            next: AtomicUsize::new(0),
        };
        if let Some(last) = texts.min(MOST_TEXTS).checked_sub(1) {
            for row in 0..=row_and_column(last).0 {
                list.make_row(row)?;
            }
        }
        Ok(list)
    }

    /// Makes the row, which no other thread makes.
    fn make_row(&self, row: usize) -> Result<Written<Row>, AllocError>
        requires { row < ROWS }
        ensures { IfOk result (λ made. made.of ≡ id_at self.now row) }
    {
        let places = empty_places(*self.rows.allocator(), 4 << (row / 8))?;
        let Ok(made) = self.rows[row].set_written(places) else {
            return Err(AllocError);
        };
        Ok(made)
    }

    /// Returns the row, which is made if it is not there.
    #[inline(always)]
    fn row(&self, rt: &impl Wait, row: usize) -> Result<Written<Row>, AllocError>
        requires { row < ROWS }
        ensures { IfOk result (λ made. made.of ≡ id_at self.now row) }
    {
        match self.rows[row].witness() {
            Some(made) => Ok(made),
            None => self.made_row(rt, row),
        }
    }

    /// As `row`, once no other thread makes a row.
    #[cold]
    fn made_row(&self, rt: &impl Wait, row: usize) -> Result<Written<Row>, AllocError>
        requires { row < ROWS }
        ensures { IfOk result (λ made. made.of ≡ id_at self.now row) }
    {
        let _making = self.making.lock(rt);
        match self.rows[row].witness() {
            Some(made) => Ok(made),
            None => self.make_row(row),
        }
    }

    /// Takes the next number, and writes a text to its place. Nothing can fail once the number is
    /// taken, so none is left out.
    pub(crate) fn push(&self, rt: &impl Wait, text: ArcStr) -> Result<SharedSymbol, InternFault>
        ensures of { IfOk result (λ symbol. IsSymbolOf self.now symbol) }
        ensures text { IfOk result (λ symbol. symbol.text ≡ text) }
        ensures never_too_long { ¬ (IsErrOf result InternFault.Length) }
    {
        let mut text = text;
        let mut number = self.len();
        while number < MOST_TEXTS {
            let (row, column) = row_and_column(number);
            let written = self.row(rt, row)?;
            let Some(empty) = self.rows[row].value(&written).get(column) else {
                return Err(InternFault::Memory);
            };
            if let Err(next) = self.take(number) {
                number = next.max(number + 1);
                continue;
            }
            match empty.set_written(text) {
                Ok(text) => {
                    return Ok(SharedSymbol {
                        bits: bits_of(number, row),
                        row: written,
                        text,
                    });
                }
                Err(back) => text = back,
            }
            number += 1;
        }
        Err(InternFault::Full)
    }

    /// Takes this number if it is the next one, and else returns that.
    fn take(&self, number: usize) -> Result<usize, usize>
        requires { number < MOST_TEXTS }
        ensures { IfOk result (λ taken. taken ≡ number) }
    {
        let (taken, next) = (Ordering::AcqRel, Ordering::Acquire);
        self.next.compare_exchange(number, number + 1, taken, next)
    }

    /// Returns how many numbers are taken. The contract does not say how many, since other threads
    /// take some meanwhile.
    pub(crate) fn len(&self) -> usize {
        self.next.load(Ordering::Acquire)
    }

    /// Returns the symbol with this number and its text, if it has one now.
    #[inline(always)]
    pub(crate) fn at(&self, number: usize) -> Option<(SharedSymbol, &ArcStr)>
        ensures of { IfSome result (λ found. IsSymbolOf self.now found.0) }
        ensures number { IfSome result (λ found. found.0.number ≡ number) }
        ensures text { IfSome result (λ found. found.1.now ≡ found.0.text) }
    {
        if number >= MOST_TEXTS {
            return None;
        }
        let (row, column) = row_and_column(number);
        let written = self.rows[row].witness()?;
        let there = self.rows[row].value(&written).get(column)?;
        let text = there.witness()?;
        let found = there.value(&text);
        let symbol = SharedSymbol {
            bits: bits_of(number, row),
            row: written,
            text,
        };
        Some((symbol, found))
    }

    /// Returns the symbol with this number, if its text spells the word.
    #[inline(always)]
    pub(crate) fn find(&self, number: usize, word: &str) -> Option<SharedSymbol>
        ensures { IfSome result (λ symbol. IsSymbolOfWord self.now symbol word.now) }
    {
        let (symbol, text) = self.at(number)?;
        if text.eq_str(word) {
            Some(symbol)
        } else {
            None
        }
    }

    /// Returns the text of a symbol of this list.
    #[inline(always)]
    pub(crate) fn text<'a>(&'a self, symbol: &SharedSymbol) -> &'a ArcStr
        requires { IsSymbolOf self.now symbol.now }
        ensures { result.now ≡ symbol.now.text }
    {
        let row = (symbol.bits % ROW_VALUES) as usize;
        let column = column_in(row, (symbol.bits / ROW_VALUES) as usize);
        self.rows[row].value(&symbol.row)[column].value(&symbol.text)
    }
}
