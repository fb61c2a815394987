// What is printed, in the form of the transcript: floats by their bits, a question with its points, the word of an end.
use crate::heaters::Points;
use alm_factory::records::PsiQuestion;
use anyhow::{Error, anyhow};
use panoc_engine::outcome::Refusal;
use panoc_engine::panoc_cache::ExitStatus;
use std::{fmt, io};
use words::float_printing::to_bits;

// A float by its bits.
#[derive(Clone, Copy)]
pub struct Bits(pub f64);

impl fmt::Display for Bits {
    fn fmt<W: fmt::Write>(&self, f: &mut fmt::Formatter<W>) -> fmt::Result {
        write!(f, "{:016x}", to_bits(self.0))
    }
}

// Floats, each with a space before it.
#[derive(Clone, Copy)]
pub struct Floats<'a>(pub &'a [f64]);

impl fmt::Display for Floats<'_> {
    fn fmt<W: fmt::Write>(&self, f: &mut fmt::Formatter<W>) -> fmt::Result {
        for &x in self.0 {
            write!(f, " {}", Bits(x))?;
        }
        Ok(())
    }
}

// The word of an end.
#[derive(Clone, Copy)]
pub struct End(pub ExitStatus);

impl fmt::Display for End {
    fn fmt<W: fmt::Write>(&self, f: &mut fmt::Formatter<W>) -> fmt::Result {
        f.write_str(match self.0 {
            ExitStatus::Converged => "Converged",
            ExitStatus::NotConvergedIterations => "NotConvergedIterations",
            ExitStatus::NotConvergedOutOfTime => "NotConvergedOutOfTime",
        })
    }
}

// A question of psi or d_psi; a product has d besides, PROJECT on C d alone.
pub fn print_penalty_question(rt: &impl Print, question: PsiQuestion, p: Points) -> io::Result<()> {
    let u = Floats(&p.u);
    let d = Floats(&p.d);
    match question {
        PsiQuestion::Cost => println!(rt; "cost{u}"),
        PsiQuestion::Gradient => println!(rt; "gradient{u}"),
        PsiQuestion::F1 => println!(rt; "f1{u}"),
        PsiQuestion::ProjectC => println!(rt; "project_c{d}"),
        PsiQuestion::Jf1t => println!(rt; "jf1t{u} d{d}"),
        PsiQuestion::F2 => println!(rt; "f2{u}"),
        PsiQuestion::Jf2t => println!(rt; "jf2t{u} d{d}"),
    }
}

// A refused call ends the program.
pub fn refused(refusal: Refusal) -> Error {
    anyhow!("refused {}", refusal.number())
}
