// A fault as a line.
ghost use Rattle.std.specs.Prelude.{◌≡◌, ◌++◌, OnOk};
ghost use Rattle.faults.specs.Faults.{told};
ghost use Rattle.answers.specs.Lines.{refused_line};

use answers::lines::push_refused;
use faults::Fault;
use std::alloc::AllocError;

// The line has the number and the place; the layer is not written.
pub fn push_fault(out: &mut Vec<u8>, fault: Fault) -> Result<(), AllocError>
    ensures { OnOk result (out.new.items ≡ out.old.items ++ refused_line (told fault).number (told fault).place) }
{
    push_refused(out, fault.refusal.number(), fault.place)
}
