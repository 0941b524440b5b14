// The lines that the console writes.
ghost use Rattle.std.specs.Prelude.{◌≡◌, ◌++◌, Some, OnOk};
ghost use Rattle.answers.specs.Lines.{spaced, read_line, refused_line};

use std::alloc::AllocError;
use std::fmt;

// A refusal's line.
pub fn push_refused(out: &mut Vec<u8>, number: u8, place: usize) -> Result<(), AllocError>
    ensures { OnOk result (out.new.items ≡ out.old.items ++ refused_line number place) }
{
    let heap = *out.allocator();
    let line = format!(in heap; "refused\t{number}\t{place}\n")?;
    out.extend_from_slice(line.as_bytes())
}

// The numbers of a form, parted by single spaces.
#[derive(Clone, Copy)]
struct Form<'a>(&'a [u8]);

impl<'a> fmt::Display for Form<'a> {
    ghost output = { λ f. Some (spaced f.0.now) };

    fn fmt<W: fmt::Write>(&self, f: &mut fmt::Formatter<W>) -> fmt::Result {
        let [first, rest @ ..] = self.0 else {
            return Ok(());
        };
        write!(f, "{first}")?;
        for number in rest {
            write!(f, " {number}")?;
        }
        Ok(())
    }
}

// A reading's line.
pub fn push_read(out: &mut Vec<u8>, points: u32, worst: u16, form: &[u8]) -> Result<(), AllocError>
    ensures { OnOk result (out.new.items ≡ out.old.items ++ read_line points worst form.now) }
{
    let heap = *out.allocator();
    let form = Form(form);
    let line = format!(in heap; "read\t{points}\t{worst}\t{form}\n")?;
    out.extend_from_slice(line.as_bytes())
}
