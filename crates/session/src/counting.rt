ghost use Rattle.std.specs.Prelude.{◌≡◌, ◌+◌, ◌^◌, ◌<◌, ◌≤◌};
ghost use Rattle.session.specs.Lists.{counted, standing};

use super::call::Answer;

// How many instructions stand after an answer, of so many before it.
fn counted(before: u128, answer: Answer) -> u128
    requires { before + 2 ^ 32 < 2 ^ 128 }
    ensures value { result ≡ counted before answer }
    ensures few { result ≤ before + 2 ^ 32 }
{
    match answer {
        Answer::Ticked(Ok(ticked)) => before + u128::from(ticked.retired),
        Answer::Stepped(Ok(_)) => before + 1,
        Answer::Ran(Ok(done)) => before + u128::from(done),
        Answer::Ran(Err(fault)) => before + u128::from(fault.done),
        Answer::Back(Ok(taken)) => before.saturating_sub(u128::from(taken)),
        Answer::Ticked(Err(_))
        | Answer::Stepped(Err(_))
        | Answer::Back(Err(_))
        | Answer::Looked(_) => before,
    }
}

/// How many instructions stand after these answers, which calls on a new bench gave one after another.
// As wide as any list of them needs.
pub fn standing(answers: &[Answer]) -> u128
    ensures { result ≡ standing 0 answers.now }
{
    let mut n = 0;
    for answer in answers {
        n = counted(n, *answer);
    }
    n
}
