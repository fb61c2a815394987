// An inner solve of the quadratic.
use crate::printing::{Bits, End, Floats, refused};
use crate::quadratic::{cost, gradient, project};
use anyhow::{Result, bail};
use panoc_engine::panoc_cache::{Answered, Outcome, Question, Reply, Run, Settings, SolverStatus};
use panoc_optimizer::{answer, points, start};

const SETTINGS: Settings = Settings {
    n: 3,
    max_iter: 5,
    limited: true,
    tolerance: 1e-4,
    akkt_tolerance: Some(1e-2),
};

// An inner solve asks at most 30 + 56 × M questions, and M is 5.
const MOST: usize = 310;

// The point of a question that has one.
fn point(run: Run) -> Result<[f64; 3]> {
    let mut first = [0.0; 3];
    points(&run, &mut first, &mut []).map_err(refused)?;
    Ok(first)
}

// Those of DIRECTION: the residual, and u.
fn residual_and_u(run: Run) -> Result<([f64; 3], [f64; 3])> {
    let mut residual = [0.0; 3];
    let mut u = [0.0; 3];
    points(&run, &mut residual, &mut u).map_err(refused)?;
    Ok((residual, u))
}

// A question is printed with its points, and answered from the model. The direction is the residual.
fn answer_to(
    rt: &impl Print,
    question: Question,
    run: Run,
    plan: &mut [f64; 3],
) -> Result<Answered> {
    match question {
        Question::Cost => {
            let u = point(run)?;
            println!(rt; "cost{}", Floats(&u))?;
            Ok(answer(run, Reply::Number(cost(u)), &[], plan))
        }
        Question::Gradient => {
            let u = point(run)?;
            println!(rt; "gradient{}", Floats(&u))?;
            Ok(answer(run, Reply::Vector, &gradient(u), plan))
        }
        Question::Project => {
            let p = point(run)?;
            println!(rt; "project{}", Floats(&p))?;
            Ok(answer(run, Reply::Vector, &project(p), plan))
        }
        Question::Direction(forget) => {
            let (r, u) = residual_and_u(run)?;
            println!(rt;
                "direction {}{} u{}",
                u8::from(forget),
                Floats(&r),
                Floats(&u)
            )?;
            Ok(answer(run, Reply::Vector, &r, plan))
        }
        Question::Time => {
            println!(rt; "time")?;
            Ok(answer(run, Reply::Yes, &[], plan))
        }
    }
}

fn print_end(rt: &impl Print, status: SolverStatus, plan: [f64; 3]) -> Result<()> {
    let end = End(status.exit_status);
    let iterations = status.iterations.0;
    let norm = Bits(status.norm_fpr);
    let cost = Bits(status.cost_value);
    println!(rt; "ended {end} {iterations} {norm} {cost}")?;
    println!(rt; "plan{}", Floats(&plan))?;
    Ok(())
}

// The plan is written where the run ends.
pub fn play(rt: &impl Print) -> Result<()> {
    let mut plan = [1.5, 0.0, 0.0];
    let mut last = start(SETTINGS, &plan);
    for _ in 0..MOST {
        let Outcome::Asked(question) = last.outcome else {
            break;
        };
        last = answer_to(rt, question, last.run, &mut plan)?;
    }
    match last.outcome {
        Outcome::Ended(status) => print_end(rt, status, plan),
        Outcome::Refused(refusal) => Err(refused(refusal)),
        Outcome::Failed(code) => bail!("failed by {code}"),
        Outcome::Asked(_) => bail!("more than {MOST} questions"),
    }
}
