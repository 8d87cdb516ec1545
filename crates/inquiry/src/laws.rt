// What links and digs are answered.
ghost use Rattle.inquiry.specs.Grounds.{AnswerLaws};

// A link is accepted exactly where no ground for a refusal holds, and each refusal has its ground; a dig tells what it has finished.
pub fn answers_have_grounds()
    ensures { AnswerLaws }
{}
