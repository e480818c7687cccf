// What is proved of the definitions that the contracts cite.
ghost use Rattle.command.specs.Alike.{SaidApart};
ghost use Rattle.command.specs.Lines.{WordsByGaps};

// A line made of words with gaps between them, and perhaps a comment, has just those words, and every line is made so.
pub fn words_are_what_gaps_part() -> u8
    ensures { WordsByGaps }
{
    0
}

// Words say one command at most, so `read` answers the only one.
pub fn words_say_one_command_at_most() -> u8
    ensures { SaidApart }
{
    0
}
