//! The ways in which the legs of a job are run.

ghost use Rattle.std.specs.Prelude.{◌≡◌, ℕ, List};
ghost use Rattle.core_steps.specs.declared.finish.Finish.{Finish};
ghost use Rattle.dataflow_model.specs.Leg.{Until};
ghost use Rattle.layout_rules.specs.ScaleData.{ScaleData};
ghost use Rattle.leg_runs.specs.Choosing.{IsLegBy};
ghost use Rattle.legs.specs.declared.choice.Choice.{Choice};
ghost use Rattle.legs.specs.declared.fault.LegFault.{LegFault as FaultValue};
ghost use Rattle.legs.specs.declared.fault.LegFault.TheVariants.{Threads};
ghost use Rattle.plan_model.specs.PlanData.{PlanData};
ghost use Rattle.redistribute.specs.StartData.{StartData};
ghost use Rattle.stream_model.specs.InputData.{InputData};

/// A way in which legs are run.
pub(crate) trait Way {
    /// What a leg that is run so may answer besides why no leg could be run.
    ghost other_fault: { FaultValue → Type 0 };

    /// What is known, by its list of choices, of a leg that was run so.
    ghost goes_by: { PlanData → ScaleData → InputData → StartData → List (List (List ℕ)) → Until → List Choice → Finish → Type 0 };
}

/// In one thread, by the choices of a list, which say what steps are made first.
pub(crate) struct ByChoices;

impl Way for ByChoices {
    ghost other_fault = { λ fault. ⊥ };

    ghost goes_by = { IsLegBy };
}

/// In a thread for each task.
pub(crate) struct InThreads;

impl Way for InThreads {
    ghost other_fault = { λ fault. fault ≡ Threads };

    ghost goes_by = { λ plan scale input start saves until choices finish. Unit {0} };
}
