//! The wording of an outcome.

ghost use Rattle.std.specs.Prelude.{◌≡◌, ◌≤◌, ◌+◌, ◌++◌, length, option_map};
ghost use Rattle.row_origin.specs.Origins.{origins_in};
ghost use Rattle.hart_words.specs.SignalNames.{name_of};
ghost use Rattle.trace_report.specs.declared.wording.TheConstants.{MOST_LINE};
ghost use Rattle.trace_report.specs.Report.{report_of, report_with, made_text, ruling_text, kind_text, image_fault_text, elf_fault_text, segment_text, state_fault_text, state_kind_text, port_text, column_name, header_fault_text, row_fault_text, column_text, difference_text, verdict_text};

use crate::origin_lines::put_origins;
use crate::outcome::{Made, Outcome, Ruling};
use crate::text::Text;
use elf_image::ElfFault;
use hart_words::{Difference, Signal};
use image_text::{FaultKind, ImageFault};
use row_origin::Origins;
use rvfi_rows::{Column, HeaderFault, Port, RowFault, Verdict};
use state_text::StateFault;

/// The most bytes of the line for a ruling; what goes before it has at most 50.
const MOST_LINE: usize = 140;

/// The text of an outcome: one line, and where origins are given a line for each register and each
/// byte of RAM that a row read. Each line ends in a line feed, and all have at most 1,024 bytes.
/// Values and addresses are `0x` and 16 hexadecimal digits, all other numbers decimal. It takes no
/// memory.
#[tactic(auto, unfolding(crate::specs::Report::report_of))]
pub fn report(outcome: &Outcome, origins: Option<&Origins>) -> Text
    ensures { result
        ≡ report_with outcome.now (option_map (λ origins. origins_in origins.now) origins.entry) }
{
    let mut text = Text::new();
    put_made(&mut text, outcome.made);
    text.put(ruling_line(&outcome.ruling).as_slice());
    if let Some(origins) = origins {
        put_origins(&mut text, origins);
    }
    text
}

/// Appends the two numbers of what was made.
fn put_made(text: &mut Text, made: Option<Made>)
    requires { length text.old ≤ 0 }
    ensures bytes { text.new ≡ text.old ++ made_text made }
    ensures short { length text.new ≤ 50 }
{
    match made {
        None => {}
        Some(made) => {
            text.put(b"made ");
            text.put_decimal(u64::from(made.number));
            text.put(b" ");
            text.put_decimal(u64::from(made.rows));
            text.put(b": ");
        }
    }
}

/// The line for a ruling.
#[tactic(auto, unfolding(crate::specs::Report::ruling_text))]
fn ruling_line(ruling: &Ruling) -> Text
    ensures text { result ≡ ruling_text ruling.now }
    ensures short { length result ≤ MOST_LINE }
{
    let mut text = Text::new();
    match ruling {
        Ruling::NoJob => text.put(b"refused words\n"),
        Ruling::ImageTooLarge { most } => {
            text.put(b"refused image: more than ");
            text.put_decimal(*most);
            text.put(b" bytes\n");
        }
        Ruling::ImageFault(fault) => put_image_fault(&mut text, *fault),
        Ruling::ElfFault(fault) => put_elf_fault(&mut text, *fault),
        Ruling::StateFault(fault) => put_state_fault(&mut text, *fault),
        Ruling::NoHeader => text.put(b"refused trace: no header\n"),
        Ruling::HeaderFault(fault) => put_header_fault(&mut text, *fault),
        Ruling::TooLong { line } => {
            text.put(b"refused trace: line ");
            text.put_decimal(*line);
            text.put(b" too long\n");
        }
        Ruling::TraceTooLarge { most } => {
            text.put(b"refused trace: more than ");
            text.put_decimal(*most);
            text.put(b" bytes\n");
        }
        Ruling::Verdict(verdict) => put_verdict(&mut text, *verdict),
    }
    text
}

#[tactic(auto, unfolding(crate::specs::Report::image_fault_text))]
fn put_image_fault(text: &mut Text, fault: ImageFault)
    requires { length text.old ≤ 0 }
    ensures text { text.new ≡ text.old ++ image_fault_text fault }
    ensures short { length text.new ≤ MOST_LINE }
{
    text.put(b"refused image: line ");
    text.put_decimal(fault.line);
    text.put(kind_text(fault.kind));
}

/// What a fault of an image is called, to the end of the line.
fn kind_text(kind: FaultKind) -> &'static [u8]
    ensures bytes { result.now ≡ kind_text kind }
    ensures short { length result.now ≤ 20 }
{
    match kind {
        FaultKind::BadByte => b": bad byte\n",
        FaultKind::BadAddress => b": bad address\n",
        FaultKind::OutsideRam => b": outside RAM\n",
        FaultKind::Overlap => b": overlap\n",
        FaultKind::OpenComment => b": open comment\n",
    }
}

#[tactic(auto, unfolding(crate::specs::Report::elf_fault_text))]
fn put_elf_fault(text: &mut Text, fault: ElfFault)
    requires { length text.old ≤ 0 }
    ensures text { text.new ≡ text.old ++ elf_fault_text fault }
    ensures short { length text.new ≤ MOST_LINE }
{
    match fault {
        ElfFault::CutShort => text.put(b"refused image: elf cut short\n"),
        ElfFault::WrongKind => text.put(b"refused image: elf of another kind\n"),
        ElfFault::BadTable => text.put(b"refused image: elf table size\n"),
        ElfFault::BadEntry => text.put(b"refused image: elf entry odd\n"),
        ElfFault::BadSegment { index } => put_segment(text, index, b": bad size\n"),
        ElfFault::OutsideRam { index } => put_segment(text, index, b": outside RAM\n"),
        ElfFault::Overlap { index } => put_segment(text, index, b": overlap\n"),
    }
}

fn put_segment(text: &mut Text, index: u16, end: &[u8])
    requires short { length text.old ≤ 0 }
    requires end { length end.now ≤ 20 }
    ensures text { text.new ≡ text.old ++ segment_text index end.now }
    ensures short { length text.new ≤ MOST_LINE }
{
    text.put(b"refused image: elf segment ");
    text.put_decimal(u64::from(index));
    text.put(end);
}

#[tactic(auto, unfolding(crate::specs::Report::state_fault_text))]
fn put_state_fault(text: &mut Text, fault: StateFault)
    requires { length text.old ≤ 0 }
    ensures text { text.new ≡ text.old ++ state_fault_text fault }
    ensures short { length text.new ≤ MOST_LINE }
{
    match fault {
        StateFault::WrongHarts => text.put(b"refused image: wrong number of harts\n"),
        StateFault::InLine { kind, line } => {
            text.put(b"refused image: line ");
            text.put_decimal(line);
            text.put(state_kind_text(kind));
        }
    }
}

/// What a fault of a saved state is called, to the end of the line.
fn state_kind_text(kind: state_text::FaultKind) -> &'static [u8]
    ensures bytes { result.now ≡ state_kind_text kind }
    ensures short { length result.now ≤ 20 }
{
    match kind {
        state_text::FaultKind::BadLine => b": bad line\n",
        state_text::FaultKind::BadValue => b": bad value\n",
        state_text::FaultKind::OutsideRam => b": outside RAM\n",
    }
}

/// Appends the name of a signal.
fn put_name(text: &mut Text, signal: Signal)
    requires { length text.old ≤ 150 }
    ensures bytes { text.new ≡ text.old ++ name_of signal }
    ensures len { length text.new ≤ length text.old + 19 }
{
    text.put(signal.prefix().as_bytes());
    text.put(signal.stem().as_bytes());
    text.put(signal.suffix().as_bytes());
}

/// What a refusal puts after a column's name: the suffix of its port, and nothing for port 0.
fn port_text(port: Port) -> &'static [u8]
    ensures bytes { result.now ≡ port_text port }
    ensures short { length result.now ≤ 2 }
{
    match port {
        Port::Zero => b"",
        Port::One => b"_1",
        Port::Two => b"_2",
        Port::Three => b"_3",
    }
}

/// Appends the name of a column as refusals have it.
fn put_column_name(text: &mut Text, column: Column)
    requires { length text.old ≤ 150 }
    ensures bytes { text.new ≡ text.old ++ column_name column }
    ensures len { length text.new ≤ length text.old + 21 }
{
    put_name(text, column.signal);
    text.put(port_text(column.port));
}

#[tactic(auto, unfolding(crate::specs::Report::header_fault_text))]
fn put_header_fault(text: &mut Text, fault: HeaderFault)
    requires { length text.old ≤ 0 }
    ensures text { text.new ≡ text.old ++ header_fault_text fault }
    ensures short { length text.new ≤ MOST_LINE }
{
    match fault {
        HeaderFault::StrayReturn => text.put(b"refused trace: stray return in header\n"),
        HeaderFault::Twice(column) => {
            text.put(b"refused trace: column ");
            put_column_name(text, column);
            text.put(b" twice\n");
        }
        HeaderFault::NoColumn(column) => {
            text.put(b"refused trace: no column ");
            put_column_name(text, column);
            text.put(b"\n");
        }
    }
}

#[tactic(auto, unfolding(crate::specs::Report::row_fault_text))]
fn put_row_fault(text: &mut Text, fault: RowFault)
    requires { length text.old ≤ 40 }
    ensures text { text.new ≡ text.old ++ row_fault_text fault }
    ensures short { length text.new ≤ MOST_LINE }
{
    match fault {
        RowFault::StrayReturn => text.put(b": stray return\n"),
        RowFault::FieldCount => text.put(b": wrong number of fields\n"),
        RowFault::Empty(column) => put_column(text, column, b" empty\n"),
        RowFault::NotNumber(column) => put_column(text, column, b" not a number\n"),
        RowFault::TooWide(column) => put_column(text, column, b" too wide\n"),
        RowFault::NoHart => text.put(b": hart not there\n"),
    }
}

fn put_column(text: &mut Text, column: Column, end: &[u8])
    requires short { length text.old ≤ 60 }
    requires end { length end.now ≤ 20 }
    ensures text { text.new ≡ text.old ++ column_text column end.now }
    ensures short { length text.new ≤ MOST_LINE }
{
    text.put(b": ");
    put_column_name(text, column);
    text.put(end);
}

#[tactic(auto, unfolding(crate::specs::Report::difference_text))]
fn put_difference(text: &mut Text, difference: Difference)
    requires { length text.old ≤ 40 }
    ensures text { text.new ≡ text.old ++ difference_text difference }
    ensures short { length text.new ≤ MOST_LINE }
{
    text.put(b": ");
    put_name(text, difference.signal);
    text.put(b" expected ");
    text.put_hexadecimal(difference.expected);
    text.put(b" found ");
    text.put_hexadecimal(difference.found);
    text.put(b"\n");
}

#[tactic(auto, unfolding(crate::specs::Report::verdict_text))]
fn put_verdict(text: &mut Text, verdict: Verdict)
    requires { length text.old ≤ 0 }
    ensures text { text.new ≡ text.old ++ verdict_text verdict }
    ensures short { length text.new ≤ MOST_LINE }
{
    match verdict {
        Verdict::Agrees { valid, .. } => {
            text.put(b"agrees ");
            text.put_decimal(valid);
            text.put(b"\n");
        }
        Verdict::Differs { row, difference } => {
            text.put(b"differs row ");
            text.put_decimal(row);
            put_difference(text, difference);
        }
        Verdict::Refused { row, fault } => {
            text.put(b"refused trace: row ");
            text.put_decimal(row);
            put_row_fault(text, fault);
        }
    }
}
