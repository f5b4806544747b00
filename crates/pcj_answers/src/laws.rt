ghost use Rattle.pcj_answers.specs.Answers.{HaveOneList, Exist};

/// The printed lines of a query's answer over a set of triples are one list.
pub fn lines_are_one_list()
    ensures { HaveOneList }
{}

/// Over each set of triples a query's answer has its printed lines.
pub fn lines_exist()
    ensures { Exist }
{}
