//! What holds of every job of `make`, of `--origin`, and of what is left out.

ghost use Rattle.std.specs.Prelude.{◌≡◌, ◌∷◌, [], ℕ, List, None, Some, codes, option_map};
ghost use Rattle.hart_words.specs.Choices.{plain_choices};
ghost use Rattle.csr_file.specs.Profiles.{plain_profile};
ghost use Rattle.judge_words.specs.Job.{IsMadeJob, JobView, job_of};
ghost use Rattle.judge_words.specs.declared.job.Command.TheVariants.{Judge, Make};
ghost use Rattle.judge_words.specs.declared.job.Product.TheVariants.{Line, Origins};

/// Whatever words ask for it: a job of `make` has a number below 2^32 and at most 2^18 rows, is
/// given no first address, has the RAM 0x80000000:0x8000000, no devices and one hart, takes as many
/// bytes of either text as any job may, and has the choices and the control and status registers
/// that stand where none is said.
pub fn made_jobs_are_plain()
    ensures { (words : List (List ℕ)) (job : JobView) (number rows : ℕ)
        → job_of words ≡ Some job → job.command ≡ Make number rows → IsMadeJob job number rows }
{}

/// There are words for such a job, as `rvjudge make 7 3`, so that the law says something.
pub fn made_jobs_stand()
    ensures { option_map (λ job. job.command)
        (job_of (codes "rvjudge" ∷ codes "make" ∷ codes "7" ∷ codes "3" ∷ []))
        ≡ Some (Make 7 3) }
{}

/// `judge` takes `--origin`, gives the line alone without it, and `state` does not take it.
pub fn judge_alone_takes_the_flag()
    ensures given { option_map (λ job. job.command)
        (job_of (codes "rvjudge" ∷ codes "judge" ∷ codes "i" ∷ codes "t" ∷ codes "--origin" ∷ []))
        ≡ Some (Judge (codes "i") (codes "t") Origins) }
    ensures left_out { option_map (λ job. job.command)
        (job_of (codes "rvjudge" ∷ codes "judge" ∷ codes "i" ∷ codes "t" ∷ []))
        ≡ Some (Judge (codes "i") (codes "t") Line) }
    ensures refused { job_of
        (codes "rvjudge" ∷ codes "state" ∷ codes "i" ∷ codes "t" ∷ codes "--origin" ∷ []) ≡ None }
{}

/// Where none of their words is given, the choices and the control and status registers of `judge`
/// are those of a made job.
pub fn what_is_left_out_is_plain()
    ensures choices { option_map (λ job. job.choices)
        (job_of (codes "rvjudge" ∷ codes "judge" ∷ codes "i" ∷ codes "t" ∷ []))
        ≡ Some plain_choices }
    ensures profile { option_map (λ job. job.profile)
        (job_of (codes "rvjudge" ∷ codes "judge" ∷ codes "i" ∷ codes "t" ∷ []))
        ≡ Some plain_profile }
{}
