ghost use Rattle.ps_filter.specs.GrammarLaws.{ReadsTheGrammar, AcceptsTheGrammar, HasOneTree, IsDeepEnough, RunsToTheEnd, AnswersEachText, TellsFaults, TellsMixing, TellsSyntax};

/// The texts that are read as filters are those of the grammar, each with its one tree.
pub fn law_grammar()
    ensures reads { ReadsTheGrammar }
    ensures accepts { AcceptsTheGrammar }
    ensures one_tree { HasOneTree }
    ensures deep_enough { IsDeepEnough }
{}

/// A text that isn't a filter has its problem at the first token with which no filter continues.
pub fn law_problems()
    ensures tokens { RunsToTheEnd }
    ensures answers { AnswersEachText }
    ensures faults { TellsFaults }
    ensures mixed { TellsMixing }
    ensures syntax { TellsSyntax }
{}
