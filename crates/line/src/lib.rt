// The line that the program prints for a ROM image.
#![tactic(auto)]

ghost use Rattle.std.specs.Prelude.{◌≡◌, [], ◌∷◌, ◌++◌};
ghost use Rattle.text.specs.Text.{decimal_of, hex_of, following};
ghost use Rattle.text.specs.Grown.{grown};
ghost use Rattle.line.specs.Lines.{where_of, registers_of, refused_line, ran_line, LineMeets};

use answer::Why;
use little::Size;
use state::State;
use state::status::sr;
use text::Line;
use turn::Ran;

// Steps and number.
#[tactic(auto, using(crate::proofs::Laws::counts_made))]
fn counted(l: &mut Line, done: u32, number: u8)
    ensures { l.new ≡ grown l.old (decimal_of done ++ following (decimal_of number ∷ [])) }
{
    l.decimal(done);
    l.push(b' ');
    l.decimal(u32::from(number));
}

// A field of hex digits, behind another one.
#[tactic(auto, using(text::proofs::Laws::field_made))]
fn field(l: &mut Line, n: u32, places: u8)
    ensures { l.new ≡ grown l.old (following (hex_of places n ∷ [])) }
{
    l.push(b' ');
    l.hex(n, places);
}

// Counter and SR.
#[tactic(auto, using(text::proofs::Laws::two_fields))]
fn placed(l: &mut Line, s: State)
    ensures { l.new ≡ grown l.old (following (where_of s)) }
{
    field(l, s.counter, 6);
    field(l, sr(s), 4);
}

#[tactic(auto, using(text::proofs::Laws::grown_none, crate::proofs::Laws::register_more))]
fn registers(l: &mut Line, s: State)
    ensures { l.new ≡ grown l.old (following (registers_of s)) }
{
    for code in 0..8 {
        field(l, s.register(Size::Long, code), 8);
    }
}

// What is printed where there is no run.
#[tactic(auto, using(crate::proofs::Laws::refused_made))]
fn refused(w: Why) -> Line
    ensures { result ≡ refused_line w }
{
    let mut line = Line::new();
    counted(&mut line, 0, w.number());
    line.push(b'\n');
    line
}

#[tactic(auto, using(crate::proofs::Laws::ran_made))]
fn ran(r: Ran) -> Line
    ensures { result ≡ ran_line r.state r.done r.answer }
{
    let mut l = Line::new();
    counted(&mut l, r.done, answer::number(r.answer));
    placed(&mut l, r.state);
    registers(&mut l, r.state);
    l.push(b'\n');
    l
}

// Resets on an image, runs 1,000 steps with 4,096 zero bytes of RAM, and gives the line.
#[tactic(auto, using(crate::proofs::Laws::for_long, crate::proofs::Laws::for_stops))]
pub fn for_image(image: &[u8]) -> Line
    ensures { LineMeets image.now result }
{
    if 32768 < image.len() {
        return refused(Why::TooLong);
    }
    let mut ram = [0u8; 4096];
    let first = step::reset(&ram, image);
    if let Err(why) = first.answer {
        return refused(why);
    }
    ran(run::run(first.state, &mut ram, image, 1000))
}
