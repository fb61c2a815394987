// psi and d_psi of the heaters at u and xi, as runs. Their questions are printed where `aloud` says so: the loop asks for both, again and again.
use crate::heaters::{Points, SIZES, answer_to};
use crate::printing::{print_penalty_question, refused};
use alm_factory::d_psi_answers::d_psi_answer;
use alm_factory::points::{d_psi_points, psi_points};
use alm_factory::psi_answers::psi_answer;
use alm_factory::records::{DPsiOutcome, DPsiRun, PsiOutcome, PsiQuestion, PsiRun};
use alm_factory::starting::{d_psi_start, psi_start};
use anyhow::{Result, bail};

fn psi_point(run: PsiRun, question: PsiQuestion) -> Result<Points> {
    let mut u = [0.0; 2];
    let mut d = [0.0; 1];
    match question {
        PsiQuestion::ProjectC => psi_points(run, &mut d, &mut []),
        _ => psi_points(run, &mut u, &mut []),
    }
    .map_err(refused)?;
    Ok(Points { u, d })
}

// The value of psi. It asks at most 4 questions.
pub fn psi(rt: &impl Print, u: [f64; 2], xi: [f64; 2], aloud: bool) -> Result<f64> {
    let mut last = psi_start(SIZES, &u, &xi);
    for _ in 0..4 {
        let PsiOutcome::Asked(question) = last.outcome else {
            break;
        };
        let p = psi_point(last.run, question)?;
        if aloud {
            print_penalty_question(rt, question, p)?;
        }
        let given = answer_to(question, p);
        last = psi_answer(last.run, given.reply(), given.vector());
    }
    match last.outcome {
        PsiOutcome::Ended(value) => Ok(value),
        PsiOutcome::Refused(refusal) => Err(refused(refusal)),
        PsiOutcome::Failed(_) | PsiOutcome::Asked(_) => bail!("psi has no value"),
    }
}

fn d_psi_point(run: DPsiRun, question: PsiQuestion) -> Result<Points> {
    let mut u = [0.0; 2];
    let mut d = [0.0; 1];
    match question {
        PsiQuestion::ProjectC => d_psi_points(run, &mut d, &mut []),
        PsiQuestion::Jf1t | PsiQuestion::Jf2t => d_psi_points(run, &mut u, &mut d),
        _ => d_psi_points(run, &mut u, &mut []),
    }
    .map_err(refused)?;
    Ok(Points { u, d })
}

// The gradient of psi, which its end writes into the lent result. It asks at most 6 questions.
pub fn d_psi(rt: &impl Print, u: [f64; 2], xi: [f64; 2], aloud: bool) -> Result<[f64; 2]> {
    let mut result = [0.0; 2];
    let mut last = d_psi_start(SIZES, &u, &xi);
    for _ in 0..6 {
        let DPsiOutcome::Asked(question) = last.outcome else {
            break;
        };
        let p = d_psi_point(last.run, question)?;
        if aloud {
            print_penalty_question(rt, question, p)?;
        }
        let given = answer_to(question, p);
        last = d_psi_answer(last.run, given.reply(), given.vector(), &mut result);
    }
    match last.outcome {
        DPsiOutcome::Ended(()) => Ok(result),
        DPsiOutcome::Refused(refusal) => Err(refused(refusal)),
        DPsiOutcome::Failed(_) | DPsiOutcome::Asked(_) => bail!("d_psi has no end"),
    }
}
