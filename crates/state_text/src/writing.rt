//! A state written to a sink.

ghost use Rattle.std.specs.Prelude.{◌≡◌, ◌≤◌, ◌<◌, ◌+◌, ◌-◌, ◌*◌, ◌%◌, ◌^◌, ◌++◌, length, map, option_map, IfOk, IfSome, OnOk, OnErr, Ok};
ghost use Rattle.std.specs.List.{All, concat};
ghost use Rattle.outside_ports.specs.Counts.{Rose};
ghost use Rattle.csr_file.specs.declared.profile.CsrProfile.{CsrProfile};
ghost use Rattle.hart_words.specs.declared.choices.Choices.{Choices};
ghost use Rattle.hart_words.specs.declared.map.Map.{Map};
ghost use Rattle.hart_words.specs.declared.span.TheConstants.{PAGE_SIZE};
ghost use Rattle.hart_words.specs.Spans.{IsPlace};
ghost use Rattle.hart_step.specs.HartSets.{SetCanStep};
ghost use Rattle.page_layers.specs.Memories.{layered_bytes, layered_ram};
ghost use Rattle.state_text.specs.declared.line.TheConstants.{MOST_BYTES};
ghost use Rattle.state_text.specs.declared.numbers.TheConstants.{NUMBERS};
ghost use Rattle.state_text.specs.declared.piece.TheConstants.{FULL_BYTES, PIECE_BYTES};
ghost use Rattle.state_text.specs.declared.state.TheConstants.{MOST_HARTS};
ghost use Rattle.state_text.specs.declared.writing.TheConstants.{PAGE_LINES};
ghost use Rattle.state_text.specs.Laws.{IsOver, IsWhole, IsZeroOutside};
ghost use Rattle.state_text.specs.Lines.{front_lines};
ghost use Rattle.state_text.specs.Memory.{block_text, bytes_from, memory_lines};
ghost use Rattle.state_text.specs.Numbers.{number_names, numbers_of, saved_csrs};
ghost use Rattle.state_text.specs.Texts.{core_lines, cores_lines, head_lines_of, number_lines, saved_text, state_in};
ghost use Rattle.state_text.specs.Writes.{FindsInRam, IsPageOf, Sends, WritesFront, text_from};

use crate::line::{block_line, flags_line, harts_line, mode_line, number_line, option_line};
use crate::memory::is_zero;
use crate::numbers::{NAMES, NUMBERS, SAVED_CSRS, number_of};
use crate::piece::{FULL_BYTES, Piece};
use csr_file::{STORED_CSRS, StoredCsr};
use hart_step::{Core, Harts, set_holds_words};
use hart_words::{PAGE_SIZE, PhysMem, PmpEntry, Span};
use outside_ports::{Failed, Sink, write_all};
use page_layers::Layered;
use rv_atomic::Reservation;

/// How many lines a page has at most.
const PAGE_LINES: u64 = 256;

/// Appends the text of the state of harts to a sink, in pieces of 8,192 bytes and more, the last
/// aside. It takes no memory. Where a write fails, the sink has a front of the text.
pub fn write_state<S: Sink>(set: &Harts<Layered>, sink: &mut S) -> Result<(), Failed>
    requires can { SetCanStep layered_ram set.now }
    requires few { length set.now.cores.items ≤ MOST_HARTS }
    ensures text { OnOk result (S.held sink.new ≡ option_map
        (λ bytes. bytes ++ saved_text set.now.cores.items (layered_bytes set.now.mem))
        (S.held sink.old)) }
    ensures no_fault { OnOk result (S.faults sink.new ≡ S.faults sink.old) }
    ensures front { OnErr result (WritesFront
        (saved_text set.now.cores.items (layered_bytes set.now.mem)) (S.held sink.old)
        (S.held sink.new)) }
    ensures fault { OnErr result (Rose (S.faults sink.old) (S.faults sink.new)) }
    ensures kept { S.faults sink.old ≤ S.faults sink.new }
    ensures back { (profile : CsrProfile) (map : Map) (choices : Choices)
        → All (IsOver profile map choices) set.now.cores.items
        → IsZeroOutside map.ram (layered_bytes set.now.mem)
        → state_in profile map choices (length set.now.cores.items)
        (saved_text set.now.cores.items (layered_bytes set.now.mem))
        ≡ Ok (set.now.cores.items, layered_bytes set.now.mem) }
{
    set_holds_words(set);
    hold_whole(set.cores.as_slice());
    let mut piece = Piece::new();
    put_front(&mut piece, set.cores.len() as u32);
    match write_cores(set.cores.as_slice(), piece, sink) {
        Ok(piece) => write_memory(&set.mem, set.cores[0].map.ram, piece, sink),
        Err(Failed) => Err(Failed),
    }
}

/// The lines before those of the harts.
fn put_front(piece: &mut Piece, harts: u32)
    requires none { length piece.old ≤ 0 }
    requires few { harts ≤ MOST_HARTS }
    ensures text { piece.new ≡ piece.old ++ concat (front_lines harts) }
    ensures len { length piece.new ≤ 2 * MOST_BYTES }
{
    piece.put(b"rvstate 1\n");
    if harts != 1 {
        piece.put(harts_line(harts).as_slice());
    }
}

/// Writes a piece, and after it the lines of harts. What is kept of them is the piece to go on
/// with.
fn write_cores<S: Sink>(cores: &[Core], piece: Piece, sink: &mut S) -> Result<Piece, Failed>
    requires whole { All IsWhole cores.now }
    requires room { length piece < FULL_BYTES }
    ensures sent { IfOk result (λ now. Sends (piece ++ concat (cores_lines cores.now)) now
        (S.held sink.old) (S.held sink.new)) }
    ensures room { IfOk result (λ now. length now < FULL_BYTES) }
    ensures no_fault { OnOk result (S.faults sink.new ≡ S.faults sink.old) }
    ensures front { OnErr result (WritesFront (piece ++ concat (cores_lines cores.now))
        (S.held sink.old) (S.held sink.new)) }
    ensures fault { OnErr result (Rose (S.faults sink.old) (S.faults sink.new)) }
    ensures kept { S.faults sink.old ≤ S.faults sink.new }
{
    let mut piece = piece;
    for place in 0..cores.len() {
        put_core(&mut piece, &cores[place]);
        piece = match write_full(piece, sink) {
            Ok(next) => next,
            Err(Failed) => return Err(Failed),
        };
    }
    Ok(piece)
}

/// The lines of a hart.
#[tactic(auto, unfolding(crate::specs::Texts::core_lines))]
fn put_core(piece: &mut Piece, core: &Core)
    requires whole { IsWhole core.now }
    requires room { length piece.old < FULL_BYTES }
    ensures text { piece.new ≡ piece.old ++ concat (core_lines core.now) }
    ensures len { length piece.new < 2 * FULL_BYTES }
{
    put_head(piece, core);
    put_numbers(piece, core);
}

/// The lines of a hart before its numbers.
fn put_head(piece: &mut Piece, core: &Core)
    requires { length piece.old < FULL_BYTES }
    ensures text { piece.new ≡ piece.old ++ concat (head_lines_of core.now) }
    ensures len { length piece.new ≤ length piece.old + 5 * MOST_BYTES }
{
    piece.put(number_line(b"pc ", core.pc()).as_slice());
    piece.put(mode_line(core.mode()));
    piece.put(option_line(b"order ", core.next_order()).as_slice());
    piece.put(flags_line(core.trapped_last(), core.halted()));
    piece.put(option_line(b"reserved ", reserved_address(core.reservation())).as_slice());
}

/// The address of the reserved block, if any.
fn reserved_address(reservation: Reservation) -> Option<u64>
    ensures { result ≡ option_map (λ block. block.address) reservation.block }
{
    match reservation.block {
        None => None,
        Some(block) => Some(block.address),
    }
}

/// The lines of the numbers.
fn put_numbers(piece: &mut Piece, core: &Core)
    requires room { length piece.old < FULL_BYTES + 5 * MOST_BYTES }
    requires count { length (numbers_of core.now.registers core.now.csrs) ≡ NUMBERS }
    ensures text { piece.new ≡ piece.old
        ++ concat (number_lines number_names (numbers_of core.now.registers core.now.csrs)) }
    ensures len { length piece.new ≤ length piece.old + NUMBERS * MOST_BYTES }
{
    put_lines(piece, core, &NAMES, &SAVED_CSRS);
}

/// The lines of the numbers, with these names, and the stored registers in this order.
fn put_lines(
    piece: &mut Piece,
    core: &Core,
    names: &[&[u8]; NUMBERS],
    stored: &[StoredCsr; STORED_CSRS],
)
    requires names { map (λ name. name.now) names.now ≡ number_names }
    requires stored { stored.now ≡ saved_csrs }
    requires room { length piece.old < FULL_BYTES + 5 * MOST_BYTES }
    requires count { length (numbers_of core.now.registers core.now.csrs) ≡ NUMBERS }
    ensures text { piece.new ≡ piece.old
        ++ concat (number_lines number_names (numbers_of core.now.registers core.now.csrs)) }
    ensures len { length piece.new ≤ length piece.old + NUMBERS * MOST_BYTES }
{
    for place in 0..NUMBERS {
        let number = number_of(&core.registers.values, &core.csrs, stored, place);
        piece.put(number_line(names[place], number).as_slice());
    }
}

/// Writes a piece, the lines of memory after it, and the end.
fn write_memory<S: Sink>(mem: &Layered, ram: Span, piece: Piece, sink: &mut S) -> Result<(), Failed>
    requires ram { layered_ram mem.now ≡ ram }
    requires room { length piece < FULL_BYTES }
    ensures text { OnOk result (S.held sink.new
        ≡ option_map (λ bytes. bytes ++ text_from piece (layered_bytes mem.now) ram) (S.held sink.old)) }
    ensures no_fault { OnOk result (S.faults sink.new ≡ S.faults sink.old) }
    ensures front { OnErr result (WritesFront (text_from piece (layered_bytes mem.now) ram)
        (S.held sink.old) (S.held sink.new)) }
    ensures fault { OnErr result (Rose (S.faults sink.old) (S.faults sink.new)) }
    ensures kept { S.faults sink.old ≤ S.faults sink.new }
{
    let mut piece = piece;
    let mut from = ram.base;
    'pages: loop {
        match next_page_in(mem, ram, from) {
            None => {
                piece.put(b"end\n");
                return write_piece(piece.as_slice(), sink);
            }
            Some(page) => {
                put_page(&mut piece, mem, page);
                piece = match write_full(piece, sink) {
                    Ok(next) => next,
                    Err(Failed) => return Err(Failed),
                };
                from = page + PAGE_SIZE;
            }
        }
    }
}

/// The next page of RAM, from an address on, that holds a byte other than 0.
fn next_page_in(mem: &Layered, ram: Span, from: u64) -> Option<u64>
    requires from { from % PAGE_SIZE ≡ 0 }
    ensures found { FindsInRam (layered_bytes mem.now) ram from result }
{
    match mem.next_page(from) {
        Some(page) if page < ram.base + ram.size => Some(page),
        _ => None,
    }
}

/// Writes a piece of 8,192 bytes or more, and begins another. A shorter one is kept.
fn write_full<S: Sink>(piece: Piece, sink: &mut S) -> Result<Piece, Failed>
    ensures sent { IfOk result (λ now. Sends piece now (S.held sink.old) (S.held sink.new)) }
    ensures room { IfOk result (λ now. length now < FULL_BYTES) }
    ensures no_fault { OnOk result (S.faults sink.new ≡ S.faults sink.old) }
    ensures front { OnErr result (WritesFront piece (S.held sink.old) (S.held sink.new)) }
    ensures fault { OnErr result (Rose (S.faults sink.old) (S.faults sink.new)) }
    ensures kept { S.faults sink.old ≤ S.faults sink.new }
{
    if piece.as_slice().len() < FULL_BYTES {
        return Ok(piece);
    }
    match write_piece(piece.as_slice(), sink) {
        Ok(()) => Ok(Piece::new()),
        Err(Failed) => Err(Failed),
    }
}

/// Writes bytes.
fn write_piece<S: Sink>(bytes: &[u8], sink: &mut S) -> Result<(), Failed>
    ensures all { OnOk result (S.held sink.new
        ≡ option_map (λ held. held ++ bytes.now) (S.held sink.old)) }
    ensures no_fault { OnOk result (S.faults sink.new ≡ S.faults sink.old) }
    ensures front { OnErr result (WritesFront bytes.now (S.held sink.old) (S.held sink.new)) }
    ensures fault { OnErr result (Rose (S.faults sink.old) (S.faults sink.new)) }
    ensures kept { S.faults sink.old ≤ S.faults sink.new }
{
    if write_all(sink, bytes) < bytes.len() {
        Err(Failed)
    } else {
        Ok(())
    }
}

/// Appends the lines of a page of RAM.
fn put_page(piece: &mut Piece, mem: &Layered, page: u64)
    requires page { IsPageOf (layered_ram mem.now) page }
    requires room { length piece.old < FULL_BYTES }
    ensures text { piece.new
        ≡ piece.old ++ concat (memory_lines (layered_bytes mem.now) page PAGE_LINES) }
    ensures len { length piece.new ≤ PIECE_BYTES - MOST_BYTES }
{
    for k in 0..PAGE_LINES {
        put_block(piece, mem, page + 16 * k);
    }
}

/// Appends the line of a block, unless it is of zeros.
fn put_block(piece: &mut Piece, mem: &Layered, address: u64)
    requires low { IsPlace (layered_ram mem.now) address 8 }
    requires high { IsPlace (layered_ram mem.now) (address + 8) 8 }
    requires room { length piece.old + MOST_BYTES ≤ PIECE_BYTES }
    ensures text { piece.new
        ≡ piece.old ++ block_text address (bytes_from (layered_bytes mem.now) address) }
    ensures len { length piece.new ≤ length piece.old + MOST_BYTES }
{
    let bytes = block_at(mem, address);
    if !is_zero(&bytes) {
        piece.put(block_line(address, &bytes).as_slice());
    }
}

/// The 16 bytes at an address.
fn block_at(mem: &Layered, address: u64) -> [u8; 16]
    requires low { IsPlace (layered_ram mem.now) address 8 }
    requires high { IsPlace (layered_ram mem.now) (address + 8) 8 }
    ensures { result ≡ bytes_from (layered_bytes mem.now) address }
{
    let low = mem.read(address, 8).to_le_bytes();
    let high = mem.read(address + 8, 8).to_le_bytes();
    [
        low[0], low[1], low[2], low[3], low[4], low[5], low[6], low[7], high[0], high[1], high[2],
        high[3], high[4], high[5], high[6], high[7],
    ]
}

/// Tells a proof what holds of the numbers of all harts. Their types say so, but a proof learns it
/// only where they are read. Nothing else comes of the call.
fn hold_whole(cores: &[Core])
    ensures { All IsWhole cores.now }
{
    for core in cores {
        hold_numbers(core);
    }
}

fn hold_numbers(core: &Core)
    ensures { IsWhole core.now }
{
    hold_31(&core.registers.values);
    hold_16(&core.csrs.entries);
    hold_order(core.next_order);
}

fn hold_31(values: &[u64; 31])
    ensures { length values.now ≡ 31 }
{}

fn hold_16(entries: &[PmpEntry; 16])
    ensures { length entries.now ≡ 16 }
{}

fn hold_order(order: Option<u64>)
    ensures { IfSome order (λ order. order < 2 ^ 64) }
{
    if let Some(order) = order {
        hold_word(order);
    }
}

fn hold_word(number: u64)
    ensures { number < 2 ^ 64 }
{}
