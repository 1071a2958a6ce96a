// Small messages walked and judged by computation: specs/ alone, no function.
#![tactic(auto)]
