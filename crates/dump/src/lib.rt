// The work of dumpmap: what is printed for an input is rendered into bytes, and these are handed to standard output.
//
// `render` says in full what is printed, of every input. Of the one call that hands the bytes over no contract can speak.
#![tactic(auto)]

ghost use Rattle.std.specs.Prelude.{◌≡◌, ◌≤◌, length};
ghost use Rattle.value.specs.declared.Mode.{Mode};
ghost use Rattle.decode.specs.Mapping.{decoded};
ghost use Rattle.lines.specs.Parts.{PutMost};
ghost use Rattle.dump.specs.Rendered.{report, rendered, Renders};

use std::io;
use std::io::Read;

// The longest input that is taken.
const MOST: usize = 16384;

// The tokens there is room for.
const PLACES: usize = 1024;

// Bytes for every input: 67,682, of which `render` says that nothing is cut off.
pub const ROOM: usize = lines::FIRST + PLACES * lines::EACH + lines::LAST;

// A text, decoded in lenient mode.
fn render_text(text: &[u8], sources: u32, names: u32, out: &mut [u8]) -> usize
    requires { 67682 ≤ length out.old }
    ensures { PutMost 67682 out.old 0 (report (decoded Mode.Lenient sources names text.now 1024)) result out.new }
{
    let mut table = [0u32; PLACES * token::WIDTH];
    let d = decode::decode_lenient(text, sources, names, &mut table);
    let after_count = lines::put_count(out, 0, d.tokens);
    let after_tokens = lines::put_tokens(&table, d.tokens, out, after_count);
    lines::put_end(out, after_tokens, d.end, d.offset)
}

// By the first line.
fn render_in(input: &[u8], out: &mut [u8]) -> usize
    requires { 67682 ≤ length out.old }
    ensures { PutMost 67682 out.old 0 (rendered input.now) result out.new }
{
    if MOST < input.len() {
        return lines::put_input(out, 0);
    }
    match first_line::first_line(input) {
        Some(line) => render_text(&input[line.text..], line.sources, line.names, out),
        None => lines::put_input(out, 0),
    }
}

// What is printed for an input, from the start of the lent bytes on, and how many bytes it is.
pub fn render(input: &[u8], out: &mut [u8; ROOM]) -> usize
    ensures { Renders input.now out.old result out.new }
{
    render_in(input, out)
}

// Hands to standard output what is printed for an input. This call is all that no contract can speak of; where it fails, the
// error is given back.
fn hand_over(rt: &impl Print, input: &[u8], bytes: &[u8]) -> io::Result<()>
    requires { bytes.now ≡ rendered input.now }
{
    rt.write_all(bytes)
}

// A whole input: its first line and its text.
pub fn dump(rt: &impl Print, input: &[u8]) -> io::Result<()> {
    let mut out = [0u8; ROOM];
    let n = render(input, &mut out);
    hand_over(rt, input, &out[..n])
}

// A longer input than is taken: the same is printed for each.
fn dump_longer(rt: &impl Print) -> io::Result<()> {
    let input = [0u8; MOST + 1];
    dump(rt, &input)
}

// Whether the input has another byte.
fn more<R: Read>(reader: &mut R) -> io::Result<bool> {
    let mut one = [0u8; 1];
    let n = input::read_full(reader, &mut one)?;
    Ok(n != 0)
}

// Standard input, to its end.
pub fn dump_stdin(rt: &(impl Input + Print)) -> io::Result<()> {
    let mut reader = rt.reader();
    let mut input = [0u8; MOST];
    let n = input::read_full(&mut reader, &mut input)?;
    if more(&mut reader)? {
        return dump_longer(rt);
    }
    dump(rt, &input[..n])
}
