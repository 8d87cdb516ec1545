// The law of histories, for whoever calls an inquiry's functions one by one.
ghost use Rattle.inquiry.specs.Histories.{Opened};
ghost use Rattle.asking.specs.Law.{Law};

// Whatever an inquiry was opened with, and whatever it is asked, by a list of requests or by single calls in any mixture, its history obeys the law.
pub fn histories_obey_the_law()
    ensures { (C : Opened) → Law C }
{}
