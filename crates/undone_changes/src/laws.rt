ghost use Rattle.undone_changes.specs.UndoneTexts.{UndoneTextsForward};

/// The law that the texts of the configurations, with the lines of the first changes of a run and behind them those that undo the
/// last of these put before their `end` lines, read as a network each of whose routers uses, by its distances alone, what the
/// definition of forwarding says of its phase where only the others are made.
pub fn undone_texts_forward()
    ensures { UndoneTextsForward }
{}
