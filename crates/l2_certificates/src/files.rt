ghost use Rattle.std.specs.Prelude.{◌≡◌, ◌≤◌, [], IfOk, length, map};
ghost use Rattle.l2_program.specs.Programs.{program_tree};
ghost use Rattle.l2_meaning.specs.Lawful.{IsLawful};
ghost use Rattle.l2_code.specs.Trees.{code_of};
ghost use Rattle.l2_code.specs.Sets.{AllRise, family};
ghost use Rattle.l2_code.specs.Sizes.{size};
ghost use Rattle.l2_front.specs.Codes.{IsCodeOf};
ghost use Rattle.l2_unwind.specs.Refused.{most_weight};
ghost use Rattle.l2_templates.specs.declared.families.Family.{Family as Forms};
ghost use Rattle.l2_cuts.specs.Cuts.{Proves};
ghost use Rattle.l2_cuts.specs.Strongest.{IsPointOf};
ghost use Rattle.l2_cert.specs.declared.cert.CertKind.TheVariants.{Safe};
ghost use Rattle.l2_verdicts.specs.Verdicts.{forms_of};
ghost use Rattle.l2_certificates.specs.Certificates.{IsFileOf};

use l2_cert::write;
use l2_certify::certify_safe;
use l2_code::{Code, Sets};
use l2_front_laws::laws::bounded_law;
use l2_goal_laws::laws::formulas_are_runs;
use l2_name_laws::laws::names_law;
use l2_program::Program;
use l2_row_engine::is_point_of;
use l2_templates::Point;
use std::alloc::{AllocError, Global};

/// The certificate file of a point that proves that no execution breaks a check. The engine finds no point that isn't over the loops'
/// variables; there is no file of those.
pub fn safe_file(
    alloc: Global,
    program: &Program,
    code: &Code,
    sets: &Sets,
    k: u32,
    point: Point,
) -> Result<Vec<u8>, AllocError>
    requires lawful { IsLawful (program_tree program.now) }
    requires code { IsCodeOf (program_tree program.now) (code_of code.now) sets.now }
    requires rise { AllRise sets.now.sets }
    requires some { 1 ≤ k }
    requires most { k ≤ 64 }
    requires domain { (forms : Forms) × IsPointOf (program_tree program.now) forms program.now.thresholds point
        × (size (code_of code.now) (family sets.now) k (map length (forms_of forms (program_tree program.now).loops)) ≤ most_weight) }
    requires proves { Proves (program_tree program.now) (family sets.now).object k point }
    ensures { IfOk result (λ file. IsFileOf Safe (program_tree program.now) k point [] file.items) }
{
    names_law();
    bounded_law();
    formulas_are_runs();
    if !is_point_of(code, &point) {
        return Err(AllocError);
    }
    match certify_safe(alloc, code, sets, false, k, point)? {
        Some(cert) => write(alloc, &cert),
        None => unreachable!(),
    }
}
