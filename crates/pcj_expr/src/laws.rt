ghost use Rattle.pcj_expr.specs.CodePoints.{TextsCompareByCodePoints};

/// Texts are in the order of their code points just where their bytes are, so that `<` of strings is by code points.
pub fn texts_compare_by_code_points()
    ensures { TextsCompareByCodePoints }
{}
