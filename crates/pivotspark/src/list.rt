// What C and Rust programs call to list: parts of the listing, its title, and the lines that stand by themselves.
ghost use Rattle.std.specs.Prelude.{◌∷◌, [], ◌≡◌};
ghost use Rattle.std.proofs.lemmas.List.Edits.{sets};
ghost use Rattle.text.specs.Words.{title};
ghost use Rattle.text.specs.Lines.{details_line, refused_line};
ghost use Rattle.parts.specs.Parts.{named_of, state_row, state_rows, state_end};
ghost use Rattle.pivotspark.specs.Lines.{ToldPart, ToldLines, Alone};

use parts::Part;

// The bytes of a part in the word that is lent for them; gives the row behind it.
fn tell_part(part: Part, told: &mut [u64; 1]) -> u64
    ensures value { result ≡ part.next }
    ensures told_after { told.new ≡ sets told.old 0 (part.len ∷ []) }
{
    told[0] = part.len as u64;
    part.next as u64
}

// A line made apart, where there is room for all of it.
fn put_line(out: &mut [u8], line: &[u8]) -> u64
    ensures { Alone line.now out.old out.new result }
{
    if out.len() < line.len() {
        return 0;
    }
    rows::put(out, 0, line);
    line.len() as u64
}

// Lines of the rows of a log, by its number, from row `from` on, of n rows.
#[unsafe(no_mangle)]
pub extern "C" fn pivotspark_lines(
    kind: u8,
    from: u64,
    n: u64,
    log: &[u64],
    out: &mut [u8],
    told: &mut [u64; 1],
) -> u64
    ensures { ToldLines (named_of kind) from n log.now out.old told.old result out.new told.new }
{
    let Some(kind) = parts::kind_of(kind) else {
        told[0] = 0;
        return from;
    };
    let part = parts::lines_from(kind, from as usize, n as usize, log, out);
    tell_part(part, told)
}

// Lines of the states from row `from` on, of n rows, over m state bytes.
#[unsafe(no_mangle)]
pub extern "C" fn pivotspark_state_lines(
    from: u64,
    n: u64,
    states: &[u64],
    m: u64,
    statebytes: &[u8],
    out: &mut [u8],
    told: &mut [u64; 1],
) -> u64
    ensures { ToldPart (state_row (state_rows n states.now) states.now (state_end m statebytes.now) statebytes.now) (state_rows n states.now) from out.old told.old result out.new told.new }
{
    let part = parts::state_lines_from(
        from as usize,
        n as usize,
        states,
        m as usize,
        statebytes,
        out,
    );
    tell_part(part, told)
}

// The first line of the listing.
#[unsafe(no_mangle)]
pub extern "C" fn pivotspark_title(out: &mut [u8]) -> u64
    ensures { Alone title out.old out.new result }
{
    let mut line = [0u8; 6];
    let len = text::title_line(&mut line, 0);
    put_line(out, &line[..len])
}

// The last one, where details were typed in.
#[unsafe(no_mangle)]
pub extern "C" fn pivotspark_details_line(n: u64, out: &mut [u8]) -> u64
    ensures { Alone (details_line n) out.old out.new result }
{
    let mut line = [0u8; parts::LONGEST];
    let len = text::details_line(&mut line, 0, n);
    put_line(out, &line[..len])
}

// The only one, where the trace is refused.
#[unsafe(no_mangle)]
pub extern "C" fn pivotspark_refused_line(answer: u8, place: u64, out: &mut [u8]) -> u64
    ensures { Alone (refused_line answer place) out.old out.new result }
{
    let mut line = [0u8; parts::LONGEST];
    let len = text::refused_line(&mut line, 0, answer as u64, place);
    put_line(out, &line[..len])
}
