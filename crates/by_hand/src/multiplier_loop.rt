// The multiplier loop of the heaters; COST and GRADIENT of its inner solves are answered by psi and d_psi.
use crate::heaters::{self, Given, Points, project, project_y};
use crate::penalty::{d_psi, psi};
use crate::printing::{End, Floats, print_penalty_question, refused};
use alm_engine::alm_cache::{AlmOptimizerStatus, AlmOutcome, AlmQuestion, AlmRun, AlmSettings};
use alm_factory::records::PsiQuestion;
use alm_optimizer::answering::answer;
use alm_optimizer::showing::points;
use alm_optimizer::starting::start;
use anyhow::{Result, bail};
use panoc_engine::panoc_cache::Question;

const SETTINGS: AlmSettings = AlmSettings {
    n: 2,
    n1: 1,
    n2: 1,
    has_set_y: true,
    max_inner_iterations: 5,
    max_outer_iterations: 3,
    limited: true,
    tolerance: 1e-2,
    epsilon_tolerance: 1e-1,
    delta_tolerance: 2e-1,
    initial_inner_tolerance: 1e-1,
    penalty_update_factor: 5.0,
    epsilon_update_factor: 0.1,
    sufficient_decrease_coeff: 0.1,
};

// A loop asks at most K × (35 + 56 × M) + 1 questions; M is 5 and K is 3.
const MOST: usize = 946;

// ---- the points of a question, of as many places as it has

fn point<const N: usize>(run: &AlmRun) -> Result<[f64; N]> {
    let mut first = [0.0; N];
    points(run, &mut first, &mut []).map_err(refused)?;
    Ok(first)
}

// u and xi, or the residual and u.
fn two_points(run: &AlmRun) -> Result<([f64; 2], [f64; 2])> {
    let mut first = [0.0; 2];
    let mut second = [0.0; 2];
    points(run, &mut first, &mut second).map_err(refused)?;
    Ok((first, second))
}

// ---- what is answered to a question, which is printed with its points

fn to_cost(rt: &impl Print, run: &AlmRun) -> Result<Given> {
    let (u, xi) = two_points(run)?;
    println!(rt; "cost{} xi{}", Floats(&u), Floats(&xi))?;
    Ok(Given::Number(psi(rt, u, xi, false)?))
}

fn to_time(rt: &impl Print) -> Result<Given> {
    println!(rt; "time")?;
    Ok(Given::Yes)
}

// Of the inner solve; the direction is the residual.
fn to_inner(rt: &impl Print, question: Question, run: &AlmRun) -> Result<Given> {
    match question {
        Question::Cost => to_cost(rt, run),
        Question::Gradient => {
            let (u, xi) = two_points(run)?;
            println!(rt; "gradient{} xi{}", Floats(&u), Floats(&xi))?;
            Ok(Given::Two(d_psi(rt, u, xi, false)?))
        }
        Question::Project => {
            let p = point(run)?;
            println!(rt; "project{}", Floats(&p))?;
            Ok(Given::Two(project(p)))
        }
        Question::Direction(forget) => {
            let (r, u) = two_points(run)?;
            println!(rt;
                "direction {}{} u{}",
                u8::from(forget),
                Floats(&r),
                Floats(&u)
            )?;
            Ok(Given::Two(r))
        }
        Question::Time => to_time(rt),
    }
}

// One that psi asks too.
fn to_penalty(rt: &impl Print, question: PsiQuestion, p: Points) -> Result<Given> {
    print_penalty_question(rt, question, p)?;
    Ok(heaters::answer_to(question, p))
}

// Of F1 and F2, at u.
fn to_mapping(rt: &impl Print, question: PsiQuestion, run: &AlmRun) -> Result<Given> {
    let u = point(run)?;
    to_penalty(rt, question, Points { u, d: [0.0] })
}

fn answer_to(rt: &impl Print, question: AlmQuestion, run: &AlmRun) -> Result<Given> {
    match question {
        AlmQuestion::Inner(question) => to_inner(rt, question, run),
        AlmQuestion::Time => to_time(rt),
        AlmQuestion::ProjectY => {
            let y = point::<1>(run)?;
            println!(rt; "project_y{}", Floats(&y))?;
            Ok(Given::One([project_y(y[0])]))
        }
        AlmQuestion::F1 => to_mapping(rt, PsiQuestion::F1, run),
        AlmQuestion::ProjectC => {
            let d = point(run)?;
            to_penalty(rt, PsiQuestion::ProjectC, Points { u: [0.0; 2], d })
        }
        AlmQuestion::F2 => to_mapping(rt, PsiQuestion::F2, run),
        AlmQuestion::Cost => to_cost(rt, run),
    }
}

// ---- the loop

fn print_end(rt: &impl Print, status: AlmOptimizerStatus) -> Result<()> {
    let end = End(status.exit_status);
    let outer = status.num_outer_iterations.0;
    let inner = status.num_inner_iterations.0;
    let numbers = [
        status.last_problem_norm_fpr,
        status.cost,
        status.penalty,
        status.delta_y_norm,
        status.f2_norm,
    ];
    println!(rt; "ended {end} {outer} {inner}{}", Floats(&numbers))?;
    Ok(())
}

// The plan, and the penalty with the multiplier, which are written where the run ends.
pub fn play(rt: &impl Print) -> Result<([f64; 2], [f64; 2])> {
    let mut plan = [0.5, 0.5];
    let mut xi = [2.0, 0.5];
    let mut last = start(SETTINGS, &plan, &xi);
    for _ in 0..MOST {
        let AlmOutcome::Asked(question) = last.outcome else {
            break;
        };
        let given = answer_to(rt, question, &last.run)?;
        last = answer(last.run, given.reply(), given.vector(), &mut plan, &mut xi);
    }
    match last.outcome {
        AlmOutcome::Ended(status) => print_end(rt, status)?,
        AlmOutcome::Refused(refusal) => return Err(refused(refusal)),
        AlmOutcome::Failed(code) => bail!("failed by {code}"),
        AlmOutcome::Asked(_) => bail!("more than {MOST} questions"),
    }
    println!(rt; "lent{} xi{}", Floats(&plan), Floats(&xi))?;
    Ok((plan, xi))
}
