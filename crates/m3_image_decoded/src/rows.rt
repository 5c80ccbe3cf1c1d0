//! The tidy places of each row, in one list.
ghost use Rattle.std.specs.Prelude.{◌≡◌, ◌≤◌, ℕ, length, IfOk, Some};
ghost use Rattle.std.specs.List.{slice_get};
ghost use Rattle.m3_tables.specs.Sections.{was_list, tidy_list};
ghost use Rattle.m3_tables.specs.Tables.{section_of, row_count, section_of_row, number_of_row};
ghost use Rattle.m3_image_decoded.specs.declared.span.Span.{Span};
ghost use Rattle.m3_image_decoded.specs.Parts.{part, IsSpan, KeepsParts};

use crate::span::Span;
use m3_base::NoMemory;
use m3_tables::{Row, TableView};
use std::alloc::Global;

/// The numbers of the tidy places of all rows, each row's in a span. A row that is the same as the
/// one before has that one's span.
#[derive(Drop)]
pub(crate) struct TidyLists<'a> {
    table: TableView<'a>,
    places: Vec<u32>,
    spans: Vec<Span>,
    ghost counted: { length spans.items ≡ row_count table },
    ghost told: { (k : ℕ) (s : Span) → slice_get spans.items k ≡ Some s → IsSpan places.items s
        × (part places.items s ≡ tidy_list (section_of table) k) },
}

/// The numbers from a place on and before another.
fn part_of(places: &[u32], span: Span) -> &[u32]
    requires { IsSpan places.now span }
    ensures { result.now ≡ part places.now span }
{
    &places[span.from..span.to]
}

/// Puts a row's tidy places behind those of the rows before, the last of which has its own in a
/// span.
fn push_row(
    alloc: Global,
    row: &Row<'_>,
    last: Span,
    places: &mut Vec<u32>,
) -> Result<Span, NoMemory>
    requires span { IsSpan places.old.items last }
    requires last { part places.old.items last
        ≡ was_list (section_of_row row.now) (number_of_row row.now) }
    ensures kept { KeepsParts places.old.items places.new.items }
    ensures span { IfOk result (λ s. IsSpan places.new.items s) }
    ensures told { IfOk result
        (λ s. part places.new.items s
        ≡ tidy_list (section_of_row row.now) (number_of_row row.now)) }
{
    if row.is_same() {
        return Ok(last);
    }
    let next = row.tidy_places(alloc, part_of(places, last))?;
    let from = places.len();
    places.extend_from_slice(&next)?;
    Ok(Span {
        from,
        to: places.len(),
    })
}

impl<'a> TidyLists<'a> {
    ghost use Rattle.std.specs.Prelude.{◌<◌, true, IfSome, IfNone};
    ghost use Rattle.m3_tables.specs.Numbers.{is_once};
    ghost use Rattle.m3_image_decoded.specs.RowViews.{table_of};

    /// The tidy places of the rows of a table.
    pub(crate) fn of(alloc: Global, table: TableView<'a>) -> Result<TidyLists<'a>, NoMemory>
        ensures { IfOk result (λ t. table_of t ≡ table.entry) }
    {
        let mut places = Vec::new(alloc);
        let mut spans = Vec::new(alloc);
        let mut last = Span { from: 0, to: 0 };
        for n in 0..table.len() {
            let Some(row) = table.at(n) else {
                break;
            };
            last = push_row(alloc, &row, last, &mut places)?;
            spans.push(last)?;
        }
        Ok(TidyLists {
            table,
            places,
            spans,
        })
    }

    /// The numbers of a row's tidy places, each once. None exactly past the last row.
    pub(crate) fn get(&self, row: usize) -> Option<&[u32]>
        ensures within { IfSome result (λ x. row < row_count (table_of self.now)) }
        ensures told { IfSome result (λ x. x.now ≡ tidy_list (section_of (table_of self.now)) row) }
        ensures once { IfSome result (λ x. is_once x.now ≡ true) }
        ensures none { IfNone result (row_count (table_of self.now) ≤ row) }
    {
        if row >= self.spans.len() {
            return None;
        }
        Some(part_of(&self.places, self.spans[row]))
    }
}
