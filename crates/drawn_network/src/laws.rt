ghost use Rattle.drawn_network.specs.PictureLaws.{HaveOnePicture, HtmlOpensNothing, LabelsEndAtTheirQuote, NamesEndAtTheirQuote};
ghost use Rattle.drawn_network.specs.PictureLaws.{NamesStayApart};

/// A network, a list of waves and a fault have one picture.
pub fn networks_have_one_picture()
    ensures { HaveOnePicture }
{}

/// Whatever the name of a router is, it stays inside its quotes, and so does its label; and what is said of a list stays a text
/// in the legend.
pub fn names_keep_their_quotes()
    ensures names { NamesEndAtTheirQuote }
    ensures labels { LabelsEndAtTheirQuote }
    ensures apart { NamesStayApart }
    ensures legend { HtmlOpensNothing }
{}
