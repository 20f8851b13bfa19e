//! The law of replies.
ghost use Rattle.jrql_reply.specs.AnswerText.{HasOneText};

/// The text of an answer is one: what a query is answered with is a function of its answer.
pub fn one_text()
    ensures { HasOneText }
{}
