ghost use Rattle.pcj_lex.specs.Token.{SaysOneToken, HasOneFault, IsNotBoth, IsNotAfterAll, IsEither};

/// Past each place of each text there is one token, or the text's end, or one place where no token starts.
pub fn one_token()
    ensures token { SaysOneToken }
    ensures fault { HasOneFault }
    ensures apart { IsNotBoth }
    ensures end { IsNotAfterAll }
    ensures some { IsEither }
{}
